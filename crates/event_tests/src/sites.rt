//! A test of the site of no texts; steps are made on sites in the tests of events.

use site_state::SiteState;
use std::test::Fail;

#[test]
fn the_first_site_has_no_file(rt: HostRuntime) -> Result<(), Fail> {
    let Ok(mut site) = SiteState::first(rt.alloc()) else {
        panic!(rt; "no memory");
    };
    assert_eq!(rt; site.configuration().blocks(), 16_384);
    assert!(rt; site.file_at(b"/a").is_none());
    let Ok(place) = site.place_of_put(b"/a", b"ann", b"lab", 9) else {
        panic!(rt; "refused");
    };
    assert_eq!(rt; place.inode, 1);
    assert!(rt; place.created);
    let Ok(()) = site.make_room() else {
        panic!(rt; "no room");
    };
    let Ok(runs) = site.free_runs(8192) else {
        panic!(rt; "no runs");
    };
    let [run] = runs.as_slice() else {
        panic!(rt; "not one run");
    };
    assert_eq!(rt; run.first, 0);
    assert_eq!(rt; run.count, 2);
    Ok(())
}

//! The line `configure`, and what the marks beside its answers count.

use crate::scripts::{Case, expect_over, plain};
use fixtures::{File, SMALL_SITE, folder_of, fresh_bank};
use std::test::Fail;

/// The site.conf of a small site.
const SITE: File<'static> = (b"site.conf", SMALL_SITE);

#[test]
fn a_site_has_the_cache_of_its_site_conf(rt: HostRuntime) -> Result<(), Fail> {
    let alloc = rt.alloc();
    let mut folder = folder_of(alloc, &[SITE], &[])?;
    let script = plain(
        b"configure\nmake /a u g 2M 0\nmake /a u g 1M 0\n",
        b"ok 0\nrefused: no space\nok 1\n",
        &[1, 1, 2],
    );
    let bank = expect_over(&rt, alloc, fresh_bank(alloc)?, &mut folder, script)?;
    // and so it has after a reopening, which reads no folder
    let script = plain(b"put /b u g x\n", b"refused: no space\n", &[2]);
    expect_over(&rt, alloc, bank, &mut folder, script)?;
    Ok(())
}

#[test]
fn no_file_gives_the_default_site(rt: HostRuntime) -> Result<(), Fail> {
    let alloc = rt.alloc();
    let mut folder = folder_of(alloc, &[], &[])?;
    let script = plain(b"configure\nmake /a u g 2M 0\n", b"ok 0\nok 1\n", &[1, 2]);
    expect_over(&rt, alloc, fresh_bank(alloc)?, &mut folder, script)?;
    Ok(())
}

#[test]
fn a_wrong_command_file_leaves_the_site_as_it_is(rt: HostRuntime) -> Result<(), Fail> {
    let alloc = rt.alloc();
    let archiver: File<'_> = (b"archiver.cmd", b"s .\n1 0\nset1 work -color red\n");
    let mut folder = folder_of(alloc, &[SITE, archiver], &[])?;
    let script = plain(
        b"configure\nmake /f1 u g 16777216 0\nmake /f2 u g 16777216 1\nmake /f3 u g 16777216 2\nmake /f4 u g 16777216 3\nput /x u g y\n",
        b"refused: archiver.cmd line 3: unknown directive\nok 1\nok 2\nok 3\nok 4\nrefused: no space\n",
        &[0, 1, 2, 3, 4, 4],
    );
    expect_over(&rt, alloc, fresh_bank(alloc)?, &mut folder, script)?;
    Ok(())
}

#[test]
fn a_site_with_a_file_is_not_configured(rt: HostRuntime) -> Result<(), Fail> {
    let alloc = rt.alloc();
    let mut folder = folder_of(alloc, &[SITE], &[])?;
    let script = plain(
        b"put /a u g x\nconfigure\nrm /a\nconfigure\n",
        b"ok 1\nrefused: running\nok 1\nok 0\n",
        &[1, 1, 2, 3],
    );
    expect_over(&rt, alloc, fresh_bank(alloc)?, &mut folder, script)?;
    Ok(())
}

#[test]
fn a_command_file_has_a_limit(rt: HostRuntime) -> Result<(), Fail> {
    let alloc = rt.alloc();
    let comment = vec![in alloc; b'#'; 65_537]?;
    let fits: &[u8] = &comment[..65_536];
    let whole: &[u8] = &comment;
    let answers: [(&[u8], &[u8], &[u64]); 2] = [
        (fits, b"ok 0\n", &[1]),
        (whole, b"refused: too large\n", &[0]),
    ];
    for (text, answer, steps) in answers {
        let mut folder = folder_of(alloc, &[(b"stager.cmd", text)], &[])?;
        let script = plain(b"configure\n", answer, steps);
        expect_over(&rt, alloc, fresh_bank(alloc)?, &mut folder, script)?;
    }
    Ok(())
}

#[test]
fn a_fault_of_the_folder_is_answered_and_changes_nothing(rt: HostRuntime) -> Result<(), Fail> {
    let alloc = rt.alloc();
    // Five files are read, and each of these calls fails once.
    for call in 1..=5 {
        let mut folder = folder_of(alloc, &[SITE], &[call])?;
        let script = Case {
            status: 3,
            ..plain(
                b"configure\nconfigure\nmake /a u g 2M 0\n",
                b"fault: folder\nok 0\nrefused: no space\n",
                &[0, 1, 1],
            )
        };
        expect_over(&rt, alloc, fresh_bank(alloc)?, &mut folder, script)?;
        assert_eq!(rt; folder.faults(), 1);
    }
    Ok(())
}

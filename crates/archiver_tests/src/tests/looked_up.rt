//! What a configuration answers for a copy of a set.

use super::shown::shown_in;
use archiver_cmd::{ArchiverConf, Owner, Reserve, Sort, SortKey, read_archiver};
use base::{Bytes, COMMAND_FILE_MAX};
use std::alloc::{AllocError, Global};
use std::test::Fail;

const TEXT: &[u8] =
    b"# film1\nlogfile = /var/adm/archiver.log\nfs = film1\nno_archive tmp\nrushes rushes -minsize 1k\n\
    1 -norelease 10m\n2 -norelease 1h\nfinals finals\n1 0\n2 30m\n3 1d\nsound sound -name \\.wav$\n1 4m 90d\n2 1h\nsmall . -maxsize 64k\n\
    1 4m\nparams\nallsets -sort path -startage 2m -reserve set\nallsets.1 -sort age\nrushes.1 -archmax 1M -startcount 2 -join path\n\
    rushes.2 -reserve user -rsort size -reserve fs\nfinals.1 -startage 0\nendparams\nvsnpools\ndaily li ^DAY\nkeep li ^FIN\nkeep lt ^OLD\n\
    endvsnpools\nvsns\nrushes.1 li -pool daily\nfinals.1 li -pool keep\nallsets.2 li X\nallsets lt Y\nrushes.1 li ^Z\nendvsns\n";

/// Its options stand at each of the three names, its volumes only at some.
const LEVELS: &[u8] = b"a .\nb x\nparams\n\
    allsets -fillvsns -join path -ovflmin 1G -startsize 1M -unarchage modify -recycle_hwm 90 \
    -recycle_mingain 50 -recycle_vsncount 3 -recycle_dataquantity 2G -reserve set -reserve fs\n\
    allsets.1 -join none -ovflmin 2G -startsize 2M -unarchage access -recycle_hwm 80 \
    -recycle_mingain 40 -recycle_vsncount 4 -recycle_dataquantity 1G -recycle_ignore\n\
    a.1 -join path -ovflmin 0 -startsize 3M -unarchage modify -recycle_hwm 70 \
    -recycle_mingain 0 -recycle_vsncount 0 -recycle_dataquantity 1K -archmax 1M -archmax 2M -sort path\n\
    a.1 -rsort size\na.2 -recycle_ignore -reserve group -recycle_hwm 100 -archmax 4M\na.2 -archmax 3M\nendparams\n\
    vsnpools\np lj C\nendvsnpools\nvsns\na.1 li X\nallsets.2 li Z\na.2 li -pool p\nendvsns\n";

const TEXT_SAYS: &[u8] =
    b"|a 4 no_archive Site tmp Default Default|a 5 rushes Site rushes min=1024 Default Default\
    |a 8 finals Site finals Default Default|a 12 sound Site sound name=\\.wav$ Default Default\
    |a 15 small Site . max=65536 Default Default\
    |s no_archive|s rushes 1@600n 2@3600n|s finals 1@0 2@1800 3@86400|s sound 1@240+7776000 2@3600|s small 1@240|s film1 1@240\
    |p allsets Sort(Sort { key: Path, reverse: false }) Startage(120) Reserve(Set)|p allsets.1 Sort(Sort { key: Age, reverse: false })\
    |p rushes.1 Archmax(1048576) Startcount(2) Join(Path)\
    |p rushes.2 Reserve(Owner(User)) Sort(Sort { key: Size, reverse: true }) Reserve(Fs)|p finals.1 Startage(0)\
    |v rushes.1 li:^DAY@25 li:^Z@34|v finals.1 li:^FIN@26|v allsets.2 li:X@32|v allsets lt:Y@33|V";

fn conf_of(alloc: Global, text: &[u8]) -> Result<ArchiverConf, Fail> {
    if text.len() > COMMAND_FILE_MAX {
        return Err("a long text".into());
    }
    Ok(read_archiver(alloc, text, b"film1")?)
}

#[test]
fn all_is_read(rt: HostRuntime) -> Result<(), Fail> {
    assert_eq!(rt; shown_in(rt.alloc(), TEXT, b"film1")?.as_slice(), TEXT_SAYS);
    Ok(())
}

#[test]
fn sets_are_in_order(rt: HostRuntime) -> Result<(), Fail> {
    let want: [(&[u8], usize); 6] = [
        (b"no_archive", 0),
        (b"rushes", 2),
        (b"finals", 3),
        (b"sound", 2),
        (b"small", 1),
        (b"film1", 1),
    ];
    let conf = conf_of(rt.alloc(), TEXT)?;
    assert_eq!(rt; conf.sets().len(), 6);
    assert_eq!(rt; conf.assignments().len(), 5);
    assert!(rt; conf.has_vsns());
    for (set, (name, copies)) in conf.sets().iter().zip(want) {
        assert_eq!(rt; set.name.as_slice(), name);
        assert_eq!(rt; set.copies.len(), copies);
    }
    Ok(())
}

const fn sort_by(key: SortKey, reverse: bool) -> Option<Sort> {
    Some(Sort { key, reverse })
}

const SET_ALONE: Option<Reserve> = Some(Reserve {
    set: true,
    owner: None,
    fs: false,
});

/// What `allsets` gives.
const BY_ALL: &str =
    "Params { archmax: None, fillvsns: true, join: Some(Path), sort: None, reserve: \
    Some(Reserve { set: true, owner: None, fs: true }), ovflmin: Some(1073741824), \
    startage: None, startcount: None, startsize: Some(1048576), unarchage: Some(Modify), \
    recycle_hwm: Some(90), recycle_mingain: Some(50), recycle_vsncount: Some(3), \
    recycle_dataquantity: Some(2147483648), recycle_ignore: false }";

/// What `allsets.1` gives, and `allsets` beside it.
const BY_COPY: &str =
    "Params { archmax: None, fillvsns: true, join: Some(None), sort: None, reserve: \
    Some(Reserve { set: true, owner: None, fs: true }), ovflmin: Some(2147483648), \
    startage: None, startcount: None, startsize: Some(2097152), unarchage: Some(Access), \
    recycle_hwm: Some(80), recycle_mingain: Some(40), recycle_vsncount: Some(4), \
    recycle_dataquantity: Some(1073741824), recycle_ignore: true }";

/// What `a.1` gives, and the other two beside it.
const BY_SET: &str =
    "Params { archmax: Some(2097152), fillvsns: true, join: Some(Path), sort: Some(Sort { \
    key: Size, reverse: true }), reserve: Some(Reserve { set: true, owner: None, fs: true \
    }), ovflmin: Some(0), startage: None, startcount: None, startsize: Some(3145728), \
    unarchage: Some(Modify), recycle_hwm: Some(70), recycle_mingain: Some(0), \
    recycle_vsncount: Some(0), recycle_dataquantity: Some(1024), recycle_ignore: true }";

/// What `a.2` gives, and `allsets` beside it.
const BY_OTHER_COPY: &str =
    "Params { archmax: Some(3145728), fillvsns: true, join: Some(Path), sort: None, reserve: \
    Some(Reserve { set: false, owner: Some(Group), fs: false }), ovflmin: Some(1073741824), \
    startage: None, startcount: None, startsize: Some(1048576), unarchage: Some(Modify), \
    recycle_hwm: Some(100), recycle_mingain: Some(50), recycle_vsncount: Some(3), \
    recycle_dataquantity: Some(2147483648), recycle_ignore: true }";

/// The options for copies of sets.
const LEVELS_SAY: [(&[u8], u8, &str); 6] = [
    (b"a", 1, BY_SET),
    (b"a", 2, BY_OTHER_COPY),
    (b"a", 3, BY_ALL),
    (b"b", 1, BY_COPY),
    (b"b", 2, BY_ALL),
    (b"film1", 1, BY_COPY),
];

/// The options of a copy as a text. A text is compared, since a comparison of all fields takes long to prove.
fn shown_params(
    alloc: Global,
    conf: &ArchiverConf,
    set: &[u8],
    copy: u8,
) -> Result<String, AllocError> {
    let params = conf.params(set, copy);
    format!(in alloc; "{params:?}")
}

#[test]
fn options_are_looked_up(rt: HostRuntime) -> Result<(), Fail> {
    let conf = conf_of(rt.alloc(), TEXT)?;
    let params = conf.params(b"rushes", 1);
    assert_eq!(rt; params.archmax, Some(1_048_576));
    assert_eq!(rt; params.startcount, Some(2));
    assert_eq!(rt; params.startage, Some(120));
    assert_eq!(rt; params.sort, sort_by(SortKey::Age, false));
    let params = conf.params(b"rushes", 2);
    assert_eq!(rt; params.sort, sort_by(SortKey::Size, true));
    let reserve = Reserve {
        set: false,
        owner: Some(Owner::User),
        fs: true,
    };
    assert_eq!(rt; params.reserve, Some(reserve));
    let params = conf.params(b"finals", 1);
    assert_eq!(rt; params.startage, Some(0));
    assert_eq!(rt; params.reserve, SET_ALONE);
    assert!(rt; !params.fillvsns && !params.recycle_ignore);
    let conf = conf_of(rt.alloc(), LEVELS)?;
    for (set, copy, want) in LEVELS_SAY {
        assert_eq!(rt; shown_params(rt.alloc(), &conf, set, copy)?.as_str(), want);
    }
    Ok(())
}

/// The texts and lines of the expressions for a copy of a set, each behind a `|`.
fn exprs_of(alloc: Global, conf: &ArchiverConf, set: &[u8], copy: u8) -> Result<Bytes, AllocError> {
    let mut shown = Bytes::new(alloc);
    for expr in conf.exprs(set, copy) {
        let line = expr.line;
        let line = format!(in alloc; "|{line} ")?;
        shown.extend(line.as_bytes())?;
        shown.extend(expr.text.as_slice())?;
    }
    Ok(shown)
}

#[test]
fn expressions_are_looked_up(rt: HostRuntime) -> Result<(), Fail> {
    let table: [(&[u8], &[u8], u8, &[u8]); 10] = [
        (TEXT, b"rushes", 1, b"|25 ^DAY|34 ^Z"),
        (TEXT, b"rushes", 2, b"|32 X"),
        (TEXT, b"finals", 1, b"|26 ^FIN"),
        (TEXT, b"finals", 3, b"|33 Y"),
        (TEXT, b"film1", 4, b"|33 Y"),
        (LEVELS, b"a", 1, b"|15 X"),
        (LEVELS, b"a", 2, b""),
        (LEVELS, b"b", 2, b"|16 Z"),
        (LEVELS, b"b", 1, b""),
        (LEVELS, b"film1", 3, b""),
    ];
    for (text, set, copy, want) in table {
        let conf = conf_of(rt.alloc(), text)?;
        assert!(rt; conf.has_vsns());
        assert_eq!(rt; exprs_of(rt.alloc(), &conf, set, copy)?.as_slice(), want);
    }
    Ok(())
}

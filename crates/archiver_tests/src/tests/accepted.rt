//! Texts that are accepted.

use super::shown::shown_in;
use std::test::Fail;

/// A text, and what it says in a site whose file system is samfs1.
type Said = (&'static [u8], &'static [u8]);

/// Lines without effect, of parts, and of assignments.
const LINES: [Said; 15] = [
    (b"", b"|s samfs1 1@240"),
    (b"# nothing\n\n \t\r\n", b"|s samfs1 1@240"),
    (
        b"bufsize = li 4\ndirectio=on\nlogfile = /a b\nnotify = x\ntimeout = read 3",
        b"|s samfs1 1@240",
    ),
    (
        b"archivemeta = off\nsetarchdone = on\nexamine = noscan\nscanlist_squash=off",
        b"|s samfs1 1@240",
    ),
    (
        b"background_interval = 1d\nbackground_time = 0000\ninterval= 10m\ndrives =robot 3",
        b"|s samfs1 1@240",
    ),
    (b"fs = a.b-c_d\n", b"|s samfs1 1@240"),
    (
        b"a . -name \\.c$ -user ann -group g -minsize 1k -maxsize 2T -access 1y",
        b"|a 1 a Global . name=\\.c$ user=ann group=g min=1024 max=2199023255552 access=31536000 Default Default|s a 1@240|s samfs1 1@240",
    ),
    (
        b"a . -minsize 1 -access 1h30m -minsize 3K -maxsize 0 -maxsize 1m",
        b"|a 1 a Global . min=3072 max=1048576 access=5400 Default Default|s a 1@240|s samfs1 1@240",
    ),
    (
        b"a . -release n -stage a -release d\na x/y\nno_archive tmp\nwait x\nparams y",
        b"|a 1 a Global . Default Associative|a 2 a Global x/y Default Default|a 3 no_archive Global tmp Default Default\
        |a 4 wait Global x Default Default|a 5 params Global y Default Default\
        |s a 1@240|s no_archive|s wait 1@240|s params 1@240|s samfs1 1@240",
    ),
    (
        b"a . -release a\na . -release p -stage n\nb x -stage d -release n",
        b"|a 1 a Global . AtOnce Default|a 2 a Global . Partial Never|a 3 b Global x Never Default|s a 1@240|s b 1@240|s samfs1 1@240",
    ),
    (
        b"a_1 x\xc2\xa0y/.z\nabcdefghijklmnopqrstuvwxyzABC x\\\ny",
        b"|a 1 a_1 Global x\xc2\xa0y/.z Default Default|a 2 abcdefghijklmnopqrstuvwxyzABC Global xy Default Default\
        |s a_1 1@240|s abcdefghijklmnopqrstuvwxyzABC 1@240|s samfs1 1@240",
    ),
    (
        b"a .\r\n1\r\n2 1h30m \\\r\n90d\r\n3 -norelease\r\n04 -release 4m",
        b"|a 1 a Global . Default Default|s a 1@240 2@5400+7776000 3@240n 4@240r|s samfs1 1@240",
    ),
    (
        b"fs = other\n1\na .\n1\nfs = samfs1\n1 10\nfs=other\n2",
        b"|a 3 a Elsewhere . Default Default|s other 1@240 2@240|s a 1@240|s samfs1 1@10",
    ),
    (
        b"b .\nfs = samfs1\na .\nparams\nendparams\ninterval = 1\n3 7d 1y # three\\\n2 1m\n",
        b"|a 1 b Global . Default Default|a 3 a Site . Default Default|s b 1@240|s a 2@60 3@604800+31536000|s samfs1 1@240",
    ),
    (
        b"fs = allsets\n1 5m\nfs = no_archive\na .",
        b"|a 4 a Elsewhere . Default Default|s allsets 1@300|s a 1@240|s samfs1 1@240",
    ),
];

/// Sections.
const SECTIONS: [Said; 13] = [
    (
        b"params\nallsets -archmax 1M -fillvsns -join path -sort none -reserve set -reserve fs -ovflmin 1G\nendparams",
        b"|s samfs1 1@240|p allsets Archmax(1048576) Fillvsns Join(Path) Sort(Sort { key: None, reverse: false }) \
        Reserve(Set) Reserve(Fs) Ovflmin(1073741824)",
    ),
    (
        b"params\nallsets.4 -startage 1d -startcount 1 -startsize 1K -unarchage modify -recycle_hwm 100\nendparams",
        b"|s samfs1 1@240|p allsets.4 Startage(86400) Startcount(1) Startsize(1024) Unarchage(Modify) RecycleHwm(100)",
    ),
    (
        b"params\nsamfs1.1 -recycle_mingain 0 -recycle_vsncount 2 -recycle_dataquantity 1g -recycle_ignore\nendparams",
        b"|s samfs1 1@240|p samfs1.1 RecycleMingain(0) RecycleVsncount(2) RecycleDataquantity(1073741824) RecycleIgnore",
    ),
    (
        b"a .\nparams\na.1 -rsort path -sort age -rsort size -join none\na.2 -reserve dir -reserve dir\na.3 -reserve group -unarchage access\nendparams",
        b"|a 1 a Global . Default Default|s a 1@240|s samfs1 1@240|p a.1 Sort(Sort { key: Path, reverse: true }) \
        Sort(Sort { key: Age, reverse: false }) Sort(Sort { key: Size, reverse: true }) Join(None)\
        |p a.2 Reserve(Owner(Dir)) Reserve(Owner(Dir))|p a.3 Reserve(Owner(Group)) Unarchage(Access)",
    ),
    (
        b"params\nallsets -lock -tapenonstop -bufsize 4 -bufsize=8 -recycle_mailaddr root -drives 2 -drivemin 1 -drivemax 2\nendparams",
        b"|s samfs1 1@240|p allsets Nothing Nothing Nothing Nothing Nothing Nothing Nothing Nothing",
    ),
    (
        b"fs = f.1-x\nparams\nf.1-x.02 -startage \\\n\\\n1h30m # soon\nendparams\n",
        b"|s samfs1 1@240|p f.1-x.2 Startage(5400)",
    ),
    (
        b"params\nallsets\nendparams\nvsns\nendvsns\nparams\nendparams",
        b"|s samfs1 1@240|p allsets|V",
    ),
    (
        b"par\\\nams\r\nallsets -lock\r\nendpar\\\r\nams\r\na .\n",
        b"|a 6 a Global . Default Default|s a 1@240|s samfs1 1@240|p allsets Nothing",
    ),
    (
        b"vsnpools\np li A\np lj C\nendvsnpools\nvsns\nallsets li -x -pool p\nallsets li D\nendvsns",
        b"|s samfs1 1@240|v allsets li:-x@6 li:A@2 li:D@7|V",
    ),
    (
        b"a .\nvsnpools\n-p li A B\nq s9 C\n-p li D\nendvsnpools\nvsns\na.1 li -pool -p -pool q E\nallsets.2 s9 -pool q -frob\nendvsns",
        b"|a 1 a Global . Default Default|s a 1@240|s samfs1 1@240\
        |v a.1 li:A@3 li:B@3 li:D@5 li:E@8|v allsets.2 s9:C@4 s9:-frob@9|V",
    ),
    (
        b"vsnpools\np lj C\nendvsnpools\nvsns\nallsets li -pool p\nendvsns",
        b"|s samfs1 1@240|v allsets|V",
    ),
    (
        b"vsnpools\np lj C\nendvsnpools\nvsns\nsamfs1.1 li -pool p X -pool p\nallsets lj -pool p\nendvsns",
        b"|s samfs1 1@240|v samfs1.1 li:X@5|v allsets lj:C@2|V",
    ),
    (
        b"vsns\nallsets li x = y \\\nz\nendvsns\nvsns\nallsets.1 lt a\nallsets li v\nendvsns",
        b"|s samfs1 1@240|v allsets li:x@2 li:=@2 li:y@2 li:z@2 li:v@7|v allsets.1 lt:a@6|V",
    ),
];

#[test]
fn accepts_lines(rt: HostRuntime) -> Result<(), Fail> {
    for (text, want) in LINES {
        assert_eq!(rt; shown_in(rt.alloc(), text, b"samfs1")?.as_slice(), want);
    }
    Ok(())
}

#[test]
fn accepts_sections(rt: HostRuntime) -> Result<(), Fail> {
    for (text, want) in SECTIONS {
        assert_eq!(rt; shown_in(rt.alloc(), text, b"samfs1")?.as_slice(), want);
    }
    Ok(())
}

/// A file system, a text in its site, and what it says.
const OTHER_SITES: [(&[u8], &[u8], &[u8]); 3] = [
    (b"no_archive", b"", b"|s no_archive"),
    (
        b"f-1",
        b"fs = f-1\n3\nparams\nf-1.3 -lock\nendparams",
        b"|s f-1 3@240|p f-1.3 Nothing",
    ),
    (
        b"f",
        b"fs = samfs1\na .\n1 1s\n",
        b"|a 2 a Elsewhere . Default Default|s a 1@1|s f 1@240",
    ),
];

#[test]
fn accepts_texts_of_other_sites(rt: HostRuntime) -> Result<(), Fail> {
    for (fs, text, want) in OTHER_SITES {
        assert_eq!(rt; shown_in(rt.alloc(), text, fs)?.as_slice(), want);
    }
    Ok(())
}

//! What a run writes that is asked to configure.

use crate::scripts::expect_answers;
use fixtures::{File, SMALL_SITE};
use std::test::Fail;

/// The site.conf of a small site.
const SITE: File<'static> = (b"site.conf", SMALL_SITE);

#[test]
fn a_configured_site_has_the_cache_of_its_site_conf(rt: HostRuntime) -> Result<(), Fail> {
    let alloc = rt.alloc();
    let files = [SITE];
    let table: [(&[u8], &[u8]); 4] = [
        (
            b"configure\nmake /a u g 2M 0\nmake /a u g 1M 0\n",
            b"ok 0\nrefused: no space\nok 1\n",
        ),
        (
            b"make /a u g 2M 0\nrm /a\nconfigure\nmake /a u g 2M 0\n",
            b"ok 1\nok 1\nok 0\nrefused: no space\n",
        ),
        (
            b"configure\nconfigure\nput /a u g hi\ncat /a\n",
            b"ok 0\nok 0\nok 1\nbytes 2\nhi\n",
        ),
        (
            b"at 5\nconfigure\nat 3\nput /a u g hi\n",
            b"at 5\nok 0\nat 5\nok 1\n",
        ),
    ];
    for (text, answers) in table {
        expect_answers(&rt, alloc, &files, text, answers)?;
    }
    Ok(())
}

#[test]
fn no_file_gives_the_default_site(rt: HostRuntime) -> Result<(), Fail> {
    let alloc = rt.alloc();
    expect_answers(
        &rt,
        alloc,
        &[],
        b"configure\nmake /a u g 2M 0\n",
        b"ok 0\nok 1\n",
    )
}

#[test]
fn a_site_with_a_file_is_not_configured(rt: HostRuntime) -> Result<(), Fail> {
    let alloc = rt.alloc();
    expect_answers(
        &rt,
        alloc,
        &[SITE],
        b"put /a u g hi\nconfigure\nmake /b u g 2M 0\nrm /a\nconfigure\nrm /b\nconfigure\n",
        b"ok 1\nrefused: running\nok 2\nok 1\nrefused: running\nok 2\nok 0\n",
    )
}

#[test]
fn the_first_wrong_line_is_told_and_the_site_stays(rt: HostRuntime) -> Result<(), Fail> {
    let alloc = rt.alloc();
    let archiver: &[u8] = b"# what is archived\nset0 .\nset1 work -color red\n";
    expect_answers(
        &rt,
        alloc,
        &[SITE, (b"archiver.cmd", archiver)],
        b"configure\nmake /a u g 2M 0\n",
        b"refused: archiver.cmd line 3: unknown directive\nok 1\n",
    )
}

#[test]
fn each_file_may_be_wrong(rt: HostRuntime) -> Result<(), Fail> {
    let alloc = rt.alloc();
    let table: [(&[u8], &[u8], &[u8]); 5] = [
        (
            b"site.conf",
            b"cache = 1M\ncache = 2M\n",
            b"refused: site.conf line 2: duplicate\n",
        ),
        (
            b"archiver.cmd",
            b"1 240\n",
            b"refused: archiver.cmd line 1: copy before set\n",
        ),
        (
            b"stager.cmd",
            b"drives = lib 1\ndrives = far 1\n",
            b"refused: stager.cmd line 2: bad value\n",
        ),
        (
            b"releaser.cmd",
            b"no_release\n\nfrob\n",
            b"refused: releaser.cmd line 3: unknown directive\n",
        ),
        (
            b"recycler.cmd",
            b"lib -hwm 101\n",
            b"refused: recycler.cmd line 1: out of range\n",
        ),
    ];
    for (file, text, answer) in table {
        // the first of a name counts
        let files = [(file, text), SITE];
        expect_answers(&rt, alloc, &files, b"configure\n", answer)?;
    }
    Ok(())
}

#[test]
fn the_first_wrong_file_is_told(rt: HostRuntime) -> Result<(), Fail> {
    let alloc = rt.alloc();
    let wrong: [File<'_>; 2] = [(b"recycler.cmd", b"frob\n"), (b"stager.cmd", b"\nfrob\n")];
    expect_answers(
        &rt,
        alloc,
        &wrong,
        b"configure\n",
        b"refused: stager.cmd line 2: unknown directive\n",
    )
}

#[test]
fn a_command_file_has_a_limit(rt: HostRuntime) -> Result<(), Fail> {
    let alloc = rt.alloc();
    let comment = vec![in alloc; b'#'; 65_537]?;
    let lengths: [(&[u8], &[u8]); 2] = [
        (&comment[..65_536], b"ok 0\n"),
        (&comment, b"refused: too large\n"),
    ];
    for (text, answer) in lengths {
        for file in [b"site.conf".as_slice(), b"recycler.cmd"] {
            let files = [(file, text)];
            expect_answers(&rt, alloc, &files, b"configure\n", answer)?;
        }
    }
    Ok(())
}

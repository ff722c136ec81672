//! What a run over memory writes.

use crate::scripts::expect_answers;
use std::test::Fail;

#[test]
fn a_run_writes_these_answers(rt: HostRuntime) -> Result<(), Fail> {
    let alloc = rt.alloc();
    let table: [(&[u8], &[u8]); 12] = [
        (b"", b""),
        (b"put /a u g hi", b"ok 1\n"),
        (
            b"put /a u g hi\nput /a v h again\r\ncat /a\n",
            b"ok 1\nok 1\nbytes 5\nagain\n",
        ),
        (
            b"put /a u g hello\nhead /a 2\nhead /a 0\nhead /a 9\nhead /b 1\n",
            b"ok 1\nbytes 2\nhe\nbytes 0\n\nbytes 5\nhello\nrefused: no file\n",
        ),
        (
            b"put /a u g hi\nput /b u g ho\nrm /a\ncat /a\nrm /a\nput /a u g x\ncat /b\n",
            b"ok 1\nok 2\nok 1\nrefused: no file\nrefused: no file\nok 3\nbytes 2\nho\n",
        ),
        (b"put /a u g\ncat /a\n", b"ok 1\nbytes 0\n\n"),
        (
            b"make /a u g 3 65\nput /b u g x\nmake /a u g 5k 48\nhead /a 4\ncat /b\n",
            b"ok 1\nok 2\nok 1\nbytes 4\n0123\nbytes 1\nx\n",
        ),
        (
            b"at 5\nput /a u g x\nat 3\nat 1099511627775\ncat /a\n",
            b"at 5\nok 1\nat 5\nat 1099511627775\nbytes 1\nx\n",
        ),
        (
            b"put a u g x\nput /b u/v g x\nmake /b u g 16777217 0\n",
            b"refused: bad path\nrefused: bad attribute\nrefused: too large\n",
        ),
        (b"# skipped\n \t\n\nput /b u g two\n", b"ok 1\n"),
        (
            b"frob\nput /b u\nhead /a x\ncat /a b\nat 1099511627776\n",
            b"refused: not a command\nrefused: bad word 4\nrefused: bad word 3\nrefused: bad word 3\nrefused: bad word 2\n",
        ),
        (b"configure\nconfigure /a\n", b"ok 0\nrefused: bad word 2\n"),
    ];
    for (text, answers) in table {
        expect_answers(&rt, alloc, &[], text, answers)?;
    }
    Ok(())
}

#[test]
fn and_of_long_lines(rt: HostRuntime) -> Result<(), Fail> {
    let alloc = rt.alloc();
    let mut text = b"put /a u g ".to_vec(alloc)?;
    text.extend_from_slice(&vec![in alloc; b'x'; 4085]?)?;
    expect_answers(&rt, alloc, &[], &text, b"ok 1\n")?;
    text.push(b'x')?;
    text.extend_from_slice(b"\nput /b u g hi\n")?;
    expect_answers(&rt, alloc, &[], &text, b"refused: line too long\nok 1\n")
}

//! The lines of hand-made texts.

use base::Bytes;
use fixtures::numbers;
use input::{LineRead, Reader, next_line};
use outside::MemorySource;
use std::alloc::{AllocError, Global};
use std::test::Fail;

// A source of a text that gives so many bytes at once and fails at one call, if at any.
fn source(
    alloc: Global,
    text: &[u8],
    most: usize,
    failing: u64,
) -> Result<MemorySource, AllocError> {
    let text = Bytes::from_slice(alloc, text)?;
    Ok(MemorySource::new(text, most.max(1), numbers(alloc, &[failing])?))
}

#[test]
fn an_input_is_read_line_by_line(rt: HostRuntime) -> Result<(), Fail> {
    let mut source = source(rt.alloc(), b"put\r\n\nlast\r", 3, 0)?;
    let mut reader = Reader::new(rt.alloc(), 12)?;
    for want in [b"put".as_slice(), b"", b"last\r"] {
        assert_eq!(rt; next_line(&mut reader, &mut source), LineRead::Line);
        assert_eq!(rt; reader.line(), want);
    }
    assert_eq!(rt; next_line(&mut reader, &mut source), LineRead::Ended);
    Ok(())
}

#[test]
fn a_budget_and_a_fault_end_an_input(rt: HostRuntime) -> Result<(), Fail> {
    for (budget, failing, want) in [
        (7, 0, LineRead::Ended),
        (6, 0, LineRead::OverBudget),
        (4, 0, LineRead::OverBudget),
        (9, 2, LineRead::SourceFault),
    ] {
        let mut source = source(rt.alloc(), b"one\ntwo", 4, failing)?;
        let mut reader = Reader::new(rt.alloc(), budget)?;
        let first = next_line(&mut reader, &mut source);
        assert_eq!(rt; first, LineRead::Line);
        let mut second = next_line(&mut reader, &mut source);
        if second == LineRead::Line {
            second = next_line(&mut reader, &mut source);
        }
        assert_eq!(rt; second, want, "budget {budget}");
    }
    Ok(())
}

// A text of so many letters with an end after them, and a further line.
fn long_text(alloc: Global, letters: usize, end: &[u8]) -> Result<Vec<u8>, AllocError> {
    let mut text = vec![in alloc; 120; letters]?;
    text.extend_from_slice(end)?;
    text.extend_from_slice(b"next\n")?;
    Ok(text)
}

#[test]
fn a_line_of_more_than_4096_bytes_is_not_kept(rt: HostRuntime) -> Result<(), Fail> {
    for (letters, end, kept) in [
        (4096, b"\r\n".as_slice(), true),
        (4096, b"\n", true),
        (4097, b"\n", false),
        (4096, b"\r\r\n", false),
        (70_000, b"\r\n", false),
    ] {
        let text = long_text(rt.alloc(), letters, end)?;
        let mut source = source(rt.alloc(), &text, 1000, 0)?;
        let mut reader = Reader::new(rt.alloc(), 100_000)?;
        let first = if kept {
            LineRead::Line
        } else {
            LineRead::TooLong
        };
        assert_eq!(rt; next_line(&mut reader, &mut source), first);
        if kept {
            assert_eq!(rt; reader.line().len(), letters);
        }
        assert_eq!(rt; next_line(&mut reader, &mut source), LineRead::Line);
        assert_eq!(rt; reader.line(), b"next".as_slice());
        assert_eq!(rt; next_line(&mut reader, &mut source), LineRead::Ended);
    }
    Ok(())
}

//! The top call over memory. What it answers at the words of a run is tested where `run_lines` is.

use crate::top::samq;
use bank::MemoryBank;
use base::{Bytes, List};
use outside::{LiteralPatterns, MemoryClock, MemoryFolder, MemorySink, MemorySource};
use std::test::Fail;

#[test]
fn other_words_touch_nothing(rt: HostRuntime) -> Result<(), Fail> {
    let alloc = rt.alloc();
    let words = [String::from_str(alloc, "run")?];
    let text = Bytes::from_slice(alloc, b"put /a u g hi")?;
    let mut input = MemorySource::new(text, 7, List::new(alloc));
    let mut output = MemorySink::new(alloc, 5, List::new(alloc));
    let outcome = samq(
        alloc,
        &words,
        MemoryBank::new(alloc, List::new(alloc))?,
        &mut MemoryClock::new(List::new(alloc)),
        &mut MemoryFolder::new(alloc, List::new(alloc), List::new(alloc)),
        LiteralPatterns::new(alloc, List::new(alloc), List::new(alloc)),
        &mut input,
        &mut output,
    );
    assert_eq!(rt; outcome.status, 1);
    assert_eq!(rt; input.left().len(), 13);
    assert!(rt; output.written().is_empty());
    assert!(rt; outcome.bank.calls().is_empty());
    Ok(())
}

//! Runs of scripts over memory, and what is looked at in what they leave.

use bank::MemoryBank;
use base::{Bytes, List};
use fixtures::{File, folder_of, fresh_bank, numbers};
use outside::{LiteralPatterns, MemoryClock, MemoryFolder, MemorySink, MemorySource};
use session::{Mark, run_lines};
use std::alloc::Global;
use std::process::Abort;
use std::test::Fail;

/// What is asked of a run, and what it is to leave.
#[derive(Clone, Copy)]
pub struct Case<'a> {
    pub text: &'a [u8],
    pub budget: u64,
    /// How many bytes are moved at most in one read, and in one write.
    pub pieces: [usize; 2],
    /// The number of the read that fails, or 0.
    pub read: u64,
    /// The number of the write that fails, or 0.
    pub write: u64,
    pub status: u8,
    pub answers: &'a [u8],
    /// The steps that each mark counts.
    pub steps: &'a [u64],
}

/// What a run left.
#[derive(Drop)]
pub struct Left {
    pub status: u8,
    pub written: Bytes,
    pub bank: MemoryBank,
    pub marks: List<Mark>,
}

/// A run without a fault.
pub fn plain<'a>(text: &'a [u8], answers: &'a [u8], steps: &'a [u64]) -> Case<'a> {
    Case {
        text,
        budget: 100_000,
        pieces: [7, 5],
        read: 0,
        write: 0,
        status: 0,
        answers,
        steps,
    }
}

// Runs the text of a case over a store and a folder. The one function that holds an outcome: each further one would be long to prove.
fn run_case(
    alloc: Global,
    bank: MemoryBank,
    folder: &mut MemoryFolder,
    case: Case<'_>,
) -> Result<Left, Fail> {
    let [read, written] = case.pieces;
    let text = Bytes::from_slice(alloc, case.text)?;
    let mut input = MemorySource::new(text, read.max(1), numbers(alloc, &[case.read])?);
    let mut output = MemorySink::new(alloc, written.max(1), numbers(alloc, &[case.write])?);
    let outcome = run_lines(
        alloc,
        bank,
        &mut MemoryClock::new(List::new(alloc)),
        folder,
        LiteralPatterns::new(alloc, List::new(alloc), List::new(alloc)),
        &mut input,
        &mut output,
        case.budget,
    );
    Ok(Left {
        status: outcome.status,
        written: Bytes::from_slice(alloc, output.written())?,
        bank: outcome.bank,
        marks: outcome.marks,
    })
}

/// Runs the text of a case over a store and a folder of these files.
pub fn run(
    alloc: Global,
    bank: MemoryBank,
    files: &[File<'_>],
    case: Case<'_>,
) -> Result<Left, Fail> {
    run_case(alloc, bank, &mut folder_of(alloc, files, &[])?, case)
}

/// Runs a text over a fresh store and a folder of these files. The status is 0, and the answers are these.
pub fn expect_answers(
    rt: &impl Abort,
    alloc: Global,
    files: &[File<'_>],
    text: &[u8],
    answers: &[u8],
) -> Result<(), Fail> {
    let case = plain(text, answers, &[]);
    let left = run(alloc, fresh_bank(alloc)?, files, case)?;
    assert_eq!(rt; left.status, case.status);
    assert!(rt; left.written.as_slice() == case.answers);
    Ok(())
}

/// Runs a case over a store and a folder, looks at its status, answers and marks, and hands the store back.
pub fn expect_over(
    rt: &impl Abort,
    alloc: Global,
    bank: MemoryBank,
    folder: &mut MemoryFolder,
    case: Case<'_>,
) -> Result<MemoryBank, Fail> {
    let left = run_case(alloc, bank, folder, case)?;
    assert_eq!(rt; left.status, case.status);
    assert!(rt; left.written.as_slice() == case.answers);
    let marks = left.marks.as_slice();
    assert_eq!(rt; marks.len(), case.steps.len());
    for (mark, steps) in marks.iter().zip(case.steps.iter()) {
        assert_eq!(rt; mark.steps, *steps);
    }
    if let Some(mark) = marks.last() {
        assert_eq!(rt; mark.answered, marks.len() as u64);
    }
    Ok(left.bank)
}

//! The top call.

ghost use Rattle.std.specs.Prelude.{◌≡◌, ◌≢◌, ◌≤◌, ℕ, ◌↔◌, [], false, true, map, string_bytes, Bool, IsTrue, List as Seq};
ghost use Rattle.samq.specs.Words.{is_run};
ghost use Rattle.site_history.specs.Steps.{HistoryStep};
ghost use Rattle.site_history.specs.Images.{IsSettled};
ghost use Rattle.session.specs.Session.{seen};
ghost use Rattle.site_history.specs.Journals.{IsBadJournal};
ghost use Rattle.session.specs.Outcomes.{run_terms, IsRefused, IsOutcome, HasStatus};

use bank::Bank;
use base::List;
use outside::{Clock, Folder, Patterns, Sink, Source};
use session::{Outcome, run_lines};
use std::alloc::Global;

/// How many bytes are read at the most.
const BUDGET: u64 = 4_294_967_296;

/// Whether the words are `run DIR`.
pub fn is_form(words: &[String]) -> bool
    ensures { result ≡ is_run (map string_bytes words.now) }
{
    match words {
        [word, _] => word.as_str() == "run",
        _ => false,
    }
}

/// Answers the lines of an input over a store, where the words are `run DIR`; DIR is not read here. The command files are those of
/// `folder`, which is read at each `configure`. At any other words the status is 1, and nothing is read or written. The bank and the
/// patterns are handed back at every status.
pub fn samq<B: Bank, C: Clock, F: Folder, P: Patterns, I: Source, O: Sink>(
    alloc: Global,
    words: &[String],
    bank: B,
    clock: &mut C,
    folder: &mut F,
    patterns: P,
    input: &mut I,
    output: &mut O,
) -> Outcome<B, P>
    ensures words { (result.status ≡ 1) ↔ (is_run (map string_bytes words.now) ≡ false) }
    // Over a store that is settled for a history, or over any store that tells nothing: what was read, asked, answered and
    // written, what ended the run, and what each crash meanwhile may leave.
    ensures outcome { is_run (map string_bytes words.now) ≡ true → (told : Bool) → (IsTrue told → IsTrue B.tells) → (before : Seq HistoryStep)
        → (IsTrue told → IsSettled (run_terms (P.found patterns)) (B.view bank) before)
        → IsOutcome (run_terms (P.found patterns)) told B.tells 4294967296 (B.view bank) (B.view result.bank)
        (seen I.left I.faults O.written O.faults F.texts F.faults B.faults B.journal_faults B.last_fault B.view input.old output.old folder.old bank)
        (seen I.left I.faults O.written O.faults F.texts F.faults B.faults B.journal_faults B.last_fault B.view input.new output.new folder.new result.bank)
        before result.marks result.status }
    // The causes of the status, over any store, and what the statuses 0, 2 and 7 mean.
    ensures status { is_run (map string_bytes words.now) ≡ true → HasStatus (run_terms (P.found patterns)) B.tells ((B.view bank).content 0) 4294967296
        (seen I.left I.faults O.written O.faults F.texts F.faults B.faults B.journal_faults B.last_fault B.view input.old output.old folder.old bank)
        (seen I.left I.faults O.written O.faults F.texts F.faults B.faults B.journal_faults B.last_fault B.view input.new output.new folder.new result.bank)
        result.status }
    // The journal of a settled store is never bad.
    ensures good { IsTrue B.tells → (before : Seq HistoryStep) → IsSettled (run_terms (P.found patterns)) (B.view bank) before → result.status ≢ 2 }
    // A store whose journal is bad is refused, and only read.
    ensures spared { is_run (map string_bytes words.now) ≡ true → IsTrue B.tells → (place : ℕ) → IsBadJournal (run_terms (P.found patterns)) ((B.view bank).content 0) place
        → IsRefused (run_terms (P.found patterns)) B.tells (B.view bank) (B.view result.bank)
        (seen I.left I.faults O.written O.faults F.texts F.faults B.faults B.journal_faults B.last_fault B.view input.old output.old folder.old bank)
        (seen I.left I.faults O.written O.faults F.texts F.faults B.faults B.journal_faults B.last_fault B.view input.new output.new folder.new result.bank)
        result.marks result.status }
    ensures untouched { is_run (map string_bytes words.now) ≡ false
        → (input.new ≡ input.old) × (output.new ≡ output.old) × (folder.new ≡ folder.old) × (result.bank ≡ bank) × (result.marks ≡ []) }
    ensures patterns { result.patterns ≡ patterns }
    ensures clock { clock.new ≡ clock.old }
    ensures folder { F.texts folder.new ≡ F.texts folder.old }
    ensures folder_later { F.faults folder.old ≤ F.faults folder.new }
    ensures source_beside { I.beside input.new ≡ I.beside input.old }
    ensures sink_beside { O.beside output.new ≡ O.beside output.old }
{
    if !is_form(words) {
        return Outcome {
            status: 1,
            marks: List::new(alloc),
            bank,
            patterns,
        };
    }
    run_lines(alloc, bank, clock, folder, patterns, input, output, BUDGET)
}

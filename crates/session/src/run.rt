//! Runs.

ghost use Rattle.std.specs.Prelude.{◌≡◌, ◌≢◌, ◌≤◌, ℕ, [], false, Bool, IsTrue, IsSome, List as Seq};
ghost use Rattle.site_history.specs.Terms.{Terms};
ghost use Rattle.input.specs.Reading.{Begins};
ghost use Rattle.site_history.specs.Steps.{HistoryStep};
ghost use Rattle.site_history.specs.Images.{IsSettled};
ghost use Rattle.site_history.specs.Journals.{IsBadJournal};
ghost use Rattle.session.specs.Rounds.{Phase, first_of};
ghost use Rattle.session.specs.Standing.{StandsAt};
ghost use Rattle.session.specs.Kept.{Passes};
ghost use Rattle.session.specs.Session.{IsSession, seen, status_of};
ghost use Rattle.session.specs.Refusing.{WritesRefusal, status_of_shut};
ghost use Rattle.session.specs.Outcomes.{run_terms, journal_bytes, IsRefused, IsOutcome, HasStatus};

use crate::heard::Heard;
use crate::kept::{Ending, Mark, Session};
use crate::lines::Lines;
use crate::protocol::Protocol;
use crate::round::{first_cause, one_round};
use bank::Bank;
use base::{JOURNAL_SIZE_MAX, List};
use desk::write_bad_journal;
use engine::{Engine, Shut, ShutCause};
use input::Reader;
use outside::{Clock, Folder, Patterns, Sink, Source};
use std::alloc::Global;

/// The size of the journal's area, in bytes.
const JOURNAL_BYTES: u64 = JOURNAL_SIZE_MAX;

/// What a run hands back.
#[derive(Drop)]
pub struct Outcome<B, P> {
    /// 0 where the input was read to its end and no answer was a fault or want of memory. Else what came first: 2 for a bad
    /// journal, 3 for a fault of the store or of the folder, 4 of the source, 5 of the sink, 7 for an input longer than the
    /// budget, 9 for want of memory.
    pub status: u8,
    /// One for each answer that was written whole.
    pub marks: List<Mark>,
    pub bank: B,
    pub patterns: P,
}

/// Answers the requests of an input until it ends, or a cause ends the session. An answer that is a fault of the store or of the
/// folder ends nothing.
pub fn converse<B: Bank, P: Drop, F: Folder, C: Clock, L: Protocol, I: Source, O: Sink>(
    alloc: Global,
    session: &mut Session<B, P>,
    folder: &mut F,
    clock: &mut C,
    protocol: &mut L,
    input: &mut I,
    output: &mut O,
) -> Ending
    requires marks { session.old.marks.items ≡ [] }
    requires status { session.old.status ≡ 0 }
    requires ready { session.old.engine.due ≡ false }
    requires fresh { Begins (L.reading protocol.old).budget (L.reading protocol.old) }
    ensures session { (terms : Terms) (told : Bool) → (IsTrue told → IsTrue B.tells) → (phase : Phase) → StandsAt terms told B.view session.old.engine session.old.own_moment (C.moments clock.old) phase
        → IsSession terms L.asks (StandsAt terms told B.view session.new.engine session.new.own_moment (C.moments clock.new)) told
        (L.reading protocol.old).budget (B.view session.new.engine.bank)
        (seen I.left I.faults O.written O.faults F.texts F.faults B.faults B.journal_faults B.last_fault B.view input.old output.old folder.old session.old.engine.bank)
        (seen I.left I.faults O.written O.faults F.texts F.faults B.faults B.journal_faults B.last_fault B.view input.new output.new folder.new session.new.engine.bank)
        phase session.new.marks.items (first_of session.new.status (status_of result)) }
    // Time goes on.
    ensures passes { (terms : Terms) (told : Bool) → (IsTrue told → IsTrue B.tells) → (phase : Phase) → StandsAt terms told B.view session.old.engine session.old.own_moment (C.moments clock.old) phase
        → IsTrue told → Passes (B.view session.old.engine.bank) (B.view session.new.engine.bank) }
    ensures size { session.new.engine.journal.size ≡ session.old.engine.journal.size }
    ensures clock { IsSome session.old.own_moment → clock.new ≡ clock.old }
    ensures folder_texts { F.texts folder.new ≡ F.texts folder.old }
    ensures folder_later { F.faults folder.old ≤ F.faults folder.new }
    ensures source_later { I.faults input.old ≤ I.faults input.new }
    ensures sink_later { O.faults output.old ≤ O.faults output.new }
    ensures bank_later { B.faults session.old.engine.bank ≤ B.faults session.new.engine.bank }
    ensures source_beside { I.beside input.new ≡ I.beside input.old }
    ensures sink_beside { O.beside output.new ≡ O.beside output.old }
    ensures patterns { session.new.engine.patterns ≡ session.old.engine.patterns }
{
    'requests: loop {
        match protocol.hear(alloc, input) {
            Heard::Skipped => {}
            Heard::Asks(asked, form) => {
                match one_round(alloc, session, folder, clock, protocol, asked, form, output) {
                    Some(ending) => return ending,
                    None => {}
                }
            }
            Heard::Stopped(ending) => return ending,
        }
    }
}

/// The status of what ended a session.
fn code(ending: Ending) -> u8
    ensures { result ≡ status_of ending }
{
    match ending {
        Ending::Ended => 0,
        Ending::Closed => 0,
        Ending::SourceFault => 4,
        Ending::SinkFault => 5,
        Ending::OverBudget => 7,
        Ending::NoMemory => 9,
    }
}

/// Answers a store that was not opened: of a bad journal its line is written, which takes no memory. Where the sink fails the
/// status stays that of the bad journal, which came first.
fn refuse<O: Sink>(cause: ShutCause, output: &mut O) -> u8
    ensures status { result ≡ status_of_shut cause }
    ensures bytes { WritesRefusal (O.written output.old) (O.written output.new) (O.faults output.old) (O.faults output.new) cause }
    ensures later { O.faults output.old ≤ O.faults output.new }
    ensures beside { O.beside output.new ≡ O.beside output.old }
{
    match cause {
        ShutCause::BankFault => 3,
        ShutCause::NoMemory => 9,
        ShutCause::BadJournal(place) => {
            let _ = write_bad_journal(output, place);
            2
        }
    }
}

/// What is handed back after a session.
fn hand_back<B: Bank, P: Drop>(session: Session<B, P>, code: u8) -> Outcome<B, P>
    ensures status { result.status ≡ first_of session.status code }
    ensures marks { result.marks ≡ session.marks.items }
    ensures bank { result.bank ≡ session.engine.bank }
    ensures patterns { result.patterns ≡ session.engine.patterns }
{
    let Session {
        engine,
        marks,
        status,
        ..
    } = session;
    let (bank, patterns) = engine.close();
    Outcome {
        status: first_cause(status, code),
        marks: List::from_vec(marks),
        bank,
        patterns,
    }
}

/// Answers the lines of an input over a store, whose site is reopened from its journal. The run begins at the moment of the
/// site's last step. At most `budget` bytes are read, and one beyond to see that there are more. The folder is read at each
/// `configure`. The bank and the patterns are handed back at every status.
pub fn run_lines<B: Bank, C: Clock, F: Folder, P: Patterns, I: Source, O: Sink>(
    alloc: Global,
    bank: B,
    clock: &mut C,
    folder: &mut F,
    patterns: P,
    input: &mut I,
    output: &mut O,
    budget: u64,
) -> Outcome<B, P>
    // Over a store that is settled for a history, or over any store that tells nothing: what was read, asked, answered and
    // written, what ended the run, and what each crash meanwhile may leave.
    ensures outcome { (told : Bool) → (IsTrue told → IsTrue B.tells) → (before : Seq HistoryStep) → (IsTrue told → IsSettled (run_terms (P.found patterns)) (B.view bank) before)
        → IsOutcome (run_terms (P.found patterns)) told B.tells budget (B.view bank) (B.view result.bank)
        (seen I.left I.faults O.written O.faults F.texts F.faults B.faults B.journal_faults B.last_fault B.view input.old output.old folder.old bank)
        (seen I.left I.faults O.written O.faults F.texts F.faults B.faults B.journal_faults B.last_fault B.view input.new output.new folder.new result.bank)
        before result.marks result.status }
    // The causes of the status, over any store, and what the statuses 0, 2 and 7 mean.
    ensures status { HasStatus (run_terms (P.found patterns)) B.tells ((B.view bank).content 0) budget
        (seen I.left I.faults O.written O.faults F.texts F.faults B.faults B.journal_faults B.last_fault B.view input.old output.old folder.old bank)
        (seen I.left I.faults O.written O.faults F.texts F.faults B.faults B.journal_faults B.last_fault B.view input.new output.new folder.new result.bank)
        result.status }
    // The journal of a settled store is never bad.
    ensures good { IsTrue B.tells → (before : Seq HistoryStep) → IsSettled (run_terms (P.found patterns)) (B.view bank) before → result.status ≢ 2 }
    // A store whose journal is bad is refused, and only read.
    ensures spared { IsTrue B.tells → (place : ℕ) → IsBadJournal (run_terms (P.found patterns)) ((B.view bank).content 0) place → IsRefused (run_terms (P.found patterns)) B.tells (B.view bank) (B.view result.bank)
        (seen I.left I.faults O.written O.faults F.texts F.faults B.faults B.journal_faults B.last_fault B.view input.old output.old folder.old bank)
        (seen I.left I.faults O.written O.faults F.texts F.faults B.faults B.journal_faults B.last_fault B.view input.new output.new folder.new result.bank)
        result.marks result.status }
    ensures patterns { result.patterns ≡ patterns }
    ensures clock { clock.new ≡ clock.old }
    ensures folder { F.texts folder.new ≡ F.texts folder.old }
    ensures folder_later { F.faults folder.old ≤ F.faults folder.new }
    ensures source_beside { I.beside input.new ≡ I.beside input.old }
    ensures sink_beside { O.beside output.new ≡ O.beside output.old }
{
    let engine = match Engine::reopen(alloc, bank, patterns, JOURNAL_BYTES) {
        Ok(engine) => engine,
        Err(shut) => {
            let Shut {
                refusal,
                bank,
                patterns,
            } = shut;
            let status = refuse(refusal, output);
            return Outcome {
                status,
                marks: List::new(alloc),
                bank,
                patterns,
            };
        }
    };
    let own_moment = Some(engine.clock);
    let mut session = Session {
        engine,
        own_moment,
        marks: Vec::new(alloc),
        status: 0,
    };
    let Ok(reader) = Reader::new(alloc, budget) else {
        return hand_back(session, 9);
    };
    let mut lines = Lines { reader };
    let ending = converse(
        alloc,
        &mut session,
        folder,
        clock,
        &mut lines,
        input,
        output,
    );
    hand_back(session, code(ending))
}

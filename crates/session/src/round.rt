//! One round: what was asked is answered, the answer is written, and a mark is kept.

ghost use Rattle.std.specs.Prelude.{◌≡◌, ◌≤◌, ◌+◌, length, IsTrue, IsSome, Bool, Result as ResultOf, Ok};
ghost use Rattle.site_history.specs.Terms.{Terms};
ghost use Rattle.base.specs.Causes.{AreCounted};
ghost use Rattle.site_events.specs.declared.event.Asked.{Asked as AskedOf};
ghost use Rattle.site_events.specs.declared.reply.LineRefusal.{LineRefusal as RefusalOf};
ghost use Rattle.site_history.specs.Worlds.{World, steps_of};
ghost use Rattle.engine.specs.StandsFor.{StandsFor};
ghost use Rattle.session.specs.Requests.{Request, reply_to};
ghost use Rattle.session.specs.Hearing.{IsReadAs, IsHeardAs};
ghost use Rattle.session.specs.Rounds.{Phase, Round, IsRoundOf, IsEvent, first_of, cause_of, faults_of, journal_faults_of, folder_faults_of};
ghost use Rattle.session.specs.Standing.{StandsAt, IsMoved};
ghost use Rattle.session.specs.OneRound.{IsRound, Writes};

use crate::heard::WriteRefusal;
use crate::kept::{Ending, Mark, Session};
use crate::moments::{move_on, take_moment};
use crate::protocol::Protocol;
use bank::Bank;
use configuration::read_texts;
use engine::Engine;
use outside::{Clock, Folder, FolderFault, Sink};
use site_events::{Asked, Event, LineRefusal, Reply};
use std::alloc::Global;

/// The status that an answer is a cause of, or 0.
fn cause(reply: &Reply) -> u8
    ensures { result ≡ cause_of reply.now }
{
    match reply {
        Reply::BankFault => 3,
        Reply::FolderFault => 3,
        Reply::BadJournal(_) => 2,
        Reply::NoMemory => 9,
        _ => 0,
    }
}

/// The first of two causes.
pub fn first_cause(before: u8, now: u8) -> u8
    ensures { result ≡ first_of before now }
{
    if before == 0 { now } else { before }
}

/// The answer to a request that is refused, or whose reading found no memory.
fn refused(refusal: LineRefusal) -> Reply
    ensures { result ≡ reply_to refusal }
{
    match refusal {
        LineRefusal::NoMemory => Reply::NoMemory,
        _ => Reply::Line(refusal),
    }
}

/// Serves an event at the next moment.
fn serve<B: Bank, P: Drop, C: Clock>(
    engine: &mut Engine<B, P>,
    own_moment: Option<u64>,
    clock: &mut C,
    event: Event,
) -> Reply
    ensures turn { (terms : Terms) (told : Bool) → (IsTrue told → IsTrue B.tells) → (phase : Phase) → StandsAt terms told B.view engine.old own_moment (C.moments clock.old) phase
        → (phase' : Phase) × IsEvent terms told phase event (B.last_fault engine.new.bank) ((B.view engine.old.bank).content 0) result phase'
        × IsMoved terms told B.view engine.old engine.new own_moment (C.moments clock.new) phase phase' }
    ensures counted { AreCounted (B.faults engine.old.bank) (faults_of result) (B.faults engine.new.bank) }
    ensures later { B.faults engine.old.bank ≤ B.faults engine.new.bank }
    ensures journal_counted { AreCounted (B.journal_faults engine.old.bank) (journal_faults_of result (B.last_fault engine.new.bank)) (B.journal_faults engine.new.bank) }
    ensures size { engine.new.journal.size ≡ engine.old.journal.size }
    ensures patterns { engine.new.patterns ≡ engine.old.patterns }
    ensures clock { IsSome own_moment → clock.new ≡ clock.old }
{
    let now = take_moment(own_moment, clock);
    engine.event(event, now)
}

/// Configures the site by the texts of the folder, at the next moment. Where they cannot be read, all stays, and no moment is taken.
fn configure<B: Bank, P: Drop, F: Folder, C: Clock>(
    alloc: Global,
    engine: &mut Engine<B, P>,
    own_moment: Option<u64>,
    folder: &mut F,
    clock: &mut C,
) -> Reply
    ensures round { (terms : Terms) (told : Bool) → (IsTrue told → IsTrue B.tells) → (phase : Phase) → StandsAt terms told B.view engine.old own_moment (C.moments clock.old) phase
        → (phase' : Phase) × IsRoundOf terms told (F.texts folder.old) phase (Ok Asked.Configure) (B.last_fault engine.new.bank) ((B.view engine.old.bank).content 0) result phase'
        × IsMoved terms told B.view engine.old engine.new own_moment (C.moments clock.new) phase phase' × AreCounted (F.faults folder.old) (folder_faults_of result) (F.faults folder.new) }
    ensures counted { AreCounted (B.faults engine.old.bank) (faults_of result) (B.faults engine.new.bank) }
    ensures later { B.faults engine.old.bank ≤ B.faults engine.new.bank }
    ensures journal_counted { AreCounted (B.journal_faults engine.old.bank) (journal_faults_of result (B.last_fault engine.new.bank)) (B.journal_faults engine.new.bank) }
    ensures folder_texts { F.texts folder.new ≡ F.texts folder.old }
    ensures folder_later { F.faults folder.old ≤ F.faults folder.new }
    ensures size { engine.new.journal.size ≡ engine.old.journal.size }
    ensures patterns { engine.new.patterns ≡ engine.old.patterns }
    ensures clock { IsSome own_moment → clock.new ≡ clock.old }
{
    match read_texts(alloc, folder) {
        Ok(texts) => serve(engine, own_moment, clock, Event::Configure { texts }),
        Err(FolderFault::Failed) => Reply::FolderFault,
        Err(FolderFault::NoMemory) => Reply::NoMemory,
        Err(FolderFault::NoFile) => unreachable!(),
    }
}

/// Answers what was asked. An event takes the next moment; `at` gives the session a moment of its own. `configure` reads the folder.
fn respond<B: Bank, P: Drop, F: Folder, C: Clock>(
    alloc: Global,
    engine: &mut Engine<B, P>,
    own_moment: &mut Option<u64>,
    folder: &mut F,
    clock: &mut C,
    asked: Result<Asked, LineRefusal>,
) -> Reply
    ensures round { (terms : Terms) (told : Bool) → (IsTrue told → IsTrue B.tells) → (phase : Phase) → StandsAt terms told B.view engine.old own_moment.old (C.moments clock.old) phase
        → (demand : ResultOf AskedOf RefusalOf) → IsReadAs asked demand
        → (phase' : Phase) × IsRoundOf terms told (F.texts folder.old) phase demand (B.last_fault engine.new.bank) ((B.view engine.old.bank).content 0) result phase'
        × IsMoved terms told B.view engine.old engine.new own_moment.new (C.moments clock.new) phase phase' × AreCounted (F.faults folder.old) (folder_faults_of result) (F.faults folder.new) }
    ensures counted { AreCounted (B.faults engine.old.bank) (faults_of result) (B.faults engine.new.bank) }
    ensures later { B.faults engine.old.bank ≤ B.faults engine.new.bank }
    ensures journal_counted { AreCounted (B.journal_faults engine.old.bank) (journal_faults_of result (B.last_fault engine.new.bank)) (B.journal_faults engine.new.bank) }
    ensures folder_texts { F.texts folder.new ≡ F.texts folder.old }
    ensures folder_later { F.faults folder.old ≤ F.faults folder.new }
    ensures size { engine.new.journal.size ≡ engine.old.journal.size }
    ensures patterns { engine.new.patterns ≡ engine.old.patterns }
    ensures clock { IsSome own_moment.old → (clock.new ≡ clock.old) × IsSome own_moment.new }
{
    let asked = match asked {
        Ok(asked) => asked,
        Err(refusal) => return refused(refusal),
    };
    match asked {
        Asked::One(event) => serve(engine, *own_moment, clock, event),
        Asked::At(moment) => Reply::At(move_on(own_moment, clock, moment)),
        Asked::Configure => configure(alloc, engine, *own_moment, folder, clock),
        _ => Reply::Line(LineRefusal::NotACommand),
    }
}

/// Answers what was asked, and keeps the first cause of a status.
fn answer<B: Bank, P: Drop, F: Folder, C: Clock>(
    alloc: Global,
    session: &mut Session<B, P>,
    folder: &mut F,
    clock: &mut C,
    asked: Result<Asked, LineRefusal>,
) -> Reply
    ensures round { (terms : Terms) (told : Bool) → (IsTrue told → IsTrue B.tells) → (phase : Phase) → StandsAt terms told B.view session.old.engine session.old.own_moment (C.moments clock.old) phase
        → (demand : ResultOf AskedOf RefusalOf) → IsReadAs asked demand
        → (phase' : Phase) × IsRoundOf terms told (F.texts folder.old) phase demand
        (B.last_fault session.new.engine.bank) ((B.view session.old.engine.bank).content 0) result phase'
        × IsMoved terms told B.view session.old.engine session.new.engine session.new.own_moment (C.moments clock.new) phase phase' × AreCounted (F.faults folder.old) (folder_faults_of result) (F.faults folder.new) }
    ensures counted { AreCounted (B.faults session.old.engine.bank) (faults_of result) (B.faults session.new.engine.bank) }
    ensures later { B.faults session.old.engine.bank ≤ B.faults session.new.engine.bank }
    ensures journal_counted { AreCounted (B.journal_faults session.old.engine.bank) (journal_faults_of result (B.last_fault session.new.engine.bank)) (B.journal_faults session.new.engine.bank) }
    ensures folder_texts { F.texts folder.new ≡ F.texts folder.old }
    ensures folder_later { F.faults folder.old ≤ F.faults folder.new }
    ensures size { session.new.engine.journal.size ≡ session.old.engine.journal.size }
    ensures patterns { session.new.engine.patterns ≡ session.old.engine.patterns }
    ensures clock { IsSome session.old.own_moment → (clock.new ≡ clock.old) × IsSome session.new.own_moment }
    ensures status { session.new.status ≡ first_of session.old.status (cause_of result) }
    ensures marks { session.new.marks ≡ session.old.marks }
{
    let reply = respond(
        alloc,
        &mut session.engine,
        &mut session.own_moment,
        folder,
        clock,
        asked,
    );
    session.status = first_cause(session.status, cause(&reply));
    reply
}

/// The mark of the next answer.
fn next_mark<B: Bank, P: Drop>(session: &Session<B, P>) -> Mark
    ensures answered { result.answered ≡ length session.now.marks.items + 1 }
    ensures steps { (terms : Terms) (told : Bool) (w : World) → StandsFor terms told B.view session.now.engine w → result.steps ≡ steps_of w }
    ensures instant { IsTrue B.tells → result.instant ≡ (B.view session.now.engine.bank).instant }
{
    Mark {
        answered: session.marks.len() as u64 + 1,
        steps: session.engine.steps(),
        instant: session.engine.bank().instant(),
    }
}

/// Writes an answer and keeps its mark. Some ends the session.
fn write_answer<L: Protocol, O: Sink>(
    alloc: Global,
    protocol: &L,
    form: &L::Form,
    reply: &Reply,
    marks: &mut Vec<Mark>,
    mark: Mark,
    output: &mut O,
) -> Option<Ending>
    ensures tells { Writes (O.written output.old) (O.written output.new) (O.faults output.old) (O.faults output.new)
        marks.old.items marks.new.items result (L.text form.now reply.now) (L.closes form.now reply.now) mark }
    ensures later { O.faults output.old ≤ O.faults output.new }
    ensures beside { O.beside output.new ≡ O.beside output.old }
{
    if marks.reserve(1).is_err() {
        return Some(Ending::NoMemory);
    }
    match protocol.write(alloc, form, reply, output) {
        Ok(()) => {}
        Err(WriteRefusal::SinkFault) => return Some(Ending::SinkFault),
        Err(WriteRefusal::NoMemory) => return Some(Ending::NoMemory),
    }
    if marks.push(mark).is_err() {
        unreachable!();
    }
    if protocol.is_last(form, reply) {
        return Some(Ending::Closed);
    }
    None
}

/// One round: what was asked is answered, the answer is written in its form, and a mark is kept. `configure` reads the folder. Some
/// ends the session.
pub fn one_round<B: Bank, P: Drop, F: Folder, C: Clock, L: Protocol, O: Sink>(
    alloc: Global,
    session: &mut Session<B, P>,
    folder: &mut F,
    clock: &mut C,
    protocol: &L,
    asked: Result<Asked, LineRefusal>,
    form: L::Form,
    output: &mut O,
) -> Option<Ending>
    ensures round { (terms : Terms) (told : Bool) → (IsTrue told → IsTrue B.tells) → (phase : Phase) → StandsAt terms told B.view session.old.engine session.old.own_moment (C.moments clock.old) phase
        → (request : Request) → IsHeardAs L.text L.closes asked form request → (round : Round)
        × IsRound terms (StandsAt terms told B.view session.new.engine session.new.own_moment (C.moments clock.new)) told
        (F.texts folder.old) (B.view session.old.engine.bank) (B.view session.new.engine.bank) phase request
        (O.written output.old) (O.written output.new) (O.faults output.old) (O.faults output.new) (F.faults folder.old) (F.faults folder.new)
        (B.faults session.old.engine.bank) (B.faults session.new.engine.bank) (B.journal_faults session.old.engine.bank) (B.journal_faults session.new.engine.bank)
        (B.last_fault session.new.engine.bank) session.old.marks.items session.new.marks.items session.old.status session.new.status result round }
    ensures size { session.new.engine.journal.size ≡ session.old.engine.journal.size }
    ensures patterns { session.new.engine.patterns ≡ session.old.engine.patterns }
    ensures clock { IsSome session.old.own_moment → (clock.new ≡ clock.old) × IsSome session.new.own_moment }
    ensures later { O.faults output.old ≤ O.faults output.new }
    ensures bank_later { B.faults session.old.engine.bank ≤ B.faults session.new.engine.bank }
    ensures folder_texts { F.texts folder.new ≡ F.texts folder.old }
    ensures folder_later { F.faults folder.old ≤ F.faults folder.new }
    ensures beside { O.beside output.new ≡ O.beside output.old }
{
    let reply = answer(alloc, session, folder, clock, asked);
    let mark = next_mark(session);
    write_answer(
        alloc,
        protocol,
        &form,
        &reply,
        &mut session.marks,
        mark,
        output,
    )
}

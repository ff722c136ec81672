//! The lines of a script.

ghost use Rattle.std.specs.Prelude.{◌≡◌, ◌≤◌};
ghost use Rattle.desk.specs.Texts.{text_of};
ghost use Rattle.session.specs.Asking.{asks_of, ends_run};
ghost use Rattle.session.specs.Hearing.{Hears, Writes};

use crate::heard::{Heard, WriteRefusal};
use crate::kept::Ending;
use crate::protocol::Protocol;
use desk::{is_skipped, read_line, write_reply};
use input::{LineRead, Reader, next_line};
use outside::{Sink, Source, write_all};
use site_events::{LineRefusal, Reply};
use std::alloc::Global;

/// The lines of a script. Each is answered by the lines of its reply, and a bad journal ends the session.
#[derive(Drop)]
pub struct Lines {
    pub reader: Reader,
}

/// Reads the next line. A line of over 4,096 bytes is refused as too long.
fn hear_line<I: Source>(alloc: Global, reader: &mut Reader, input: &mut I) -> Heard<()>
    ensures hears { Hears asks_of (λ form. text_of) (λ form. ends_run) (I.left input.old) (I.left input.new) (I.faults input.old) (I.faults input.new) reader.old reader.new result }
    ensures later { I.faults input.old ≤ I.faults input.new }
    ensures beside { I.beside input.new ≡ I.beside input.old }
{
    match next_line(reader, input) {
        LineRead::Line => {
            let line = reader.line();
            if is_skipped(line) {
                return Heard::Skipped;
            }
            Heard::Asks(read_line(alloc, line), ())
        }
        LineRead::TooLong => Heard::Asks(Err(LineRefusal::LineTooLong), ()),
        LineRead::Ended => Heard::Stopped(Ending::Ended),
        LineRead::SourceFault => Heard::Stopped(Ending::SourceFault),
        LineRead::OverBudget => Heard::Stopped(Ending::OverBudget),
    }
}

/// Writes the lines of a reply.
fn write_lines<O: Sink>(alloc: Global, reply: &Reply, output: &mut O) -> Result<(), WriteRefusal>
    ensures writes { Writes (O.written output.old) (O.written output.new) (O.faults output.old) (O.faults output.new) (text_of reply.now) result }
    ensures later { O.faults output.old ≤ O.faults output.new }
    ensures beside { O.beside output.new ≡ O.beside output.old }
{
    let Ok(text) = write_reply(alloc, reply) else {
        return Err(WriteRefusal::NoMemory);
    };
    if write_all(output, text.as_slice()).is_err() {
        return Err(WriteRefusal::SinkFault);
    }
    Ok(())
}

/// Whether an answer ends a run of lines.
fn ends_run(reply: &Reply) -> bool
    ensures { result ≡ ends_run reply.now }
{
    match reply {
        Reply::BadJournal(_) => true,
        _ => false,
    }
}

impl Protocol for Lines {
    type Form = ();

    ghost asks = { asks_of };

    ghost text = { λ form. text_of };

    ghost closes = { λ form. ends_run };

    ghost reading = { λ lines. lines.reader };

    fn hear<I: Source>(&mut self, alloc: Global, input: &mut I) -> Heard<()> {
        hear_line(alloc, &mut self.reader, input)
    }

    fn write<O: Sink>(
        &self,
        alloc: Global,
        _form: &(),
        reply: &Reply,
        output: &mut O,
    ) -> Result<(), WriteRefusal> {
        write_lines(alloc, reply, output)
    }

    fn is_last(&self, _form: &(), reply: &Reply) -> bool {
        ends_run(reply)
    }
}

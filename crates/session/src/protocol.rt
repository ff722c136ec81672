//! How requests come, and how they are answered.

ghost use Rattle.std.specs.Prelude.{◌≡◌, ◌≤◌, ℕ, List, Bool};
ghost use Rattle.site_events.specs.declared.reply.Reply.{Reply};
ghost use Rattle.input.specs.Reading.{Reading, Items};
ghost use Rattle.session.specs.Requests.{Request};
ghost use Rattle.session.specs.Hearing.{Hears, Writes};

use crate::heard::{Heard, WriteRefusal};
use outside::{Sink, Source};
use site_events::Reply;
use std::alloc::Global;

/// How the requests of a session come, and how they are answered. It keeps what it has read ahead of its source.
pub trait Protocol: Drop {
    /// What of a request its answer depends on, beside the reply.
    type Form: Drop;

    /// What a text asks, whose end was met or not.
    ghost asks: { Items Request };

    /// How a reply to a request of this form is written.
    ghost text: { Self.Form → Reply → List ℕ };

    /// Whether a reply to a request of this form ends the session.
    ghost closes: { Self.Form → Reply → Bool };

    /// What it has read ahead, and how much more it may read.
    ghost reading: { Self → Reading };

    /// Reads the next request. One for which no memory is found is read to its end all the same, and heard as
    /// `LineRefusal::NoMemory`; its answer is that of want of memory, or where its form is never written the session ends.
    fn hear<I: Source>(&mut self, alloc: Global, input: &mut I) -> Heard<Self::Form>
        ensures hears { Hears asks text closes (I.left input.old) (I.left input.new) (I.faults input.old) (I.faults input.new) (reading self.old) (reading self.new) result }
        ensures later { I.faults input.old ≤ I.faults input.new }
        ensures beside { I.beside input.new ≡ I.beside input.old };

    /// Writes the answer to a request of this form. After `WriteRefusal::NoMemory` nothing of it was written.
    fn write<O: Sink>(
        &self,
        alloc: Global,
        form: &Self::Form,
        reply: &Reply,
        output: &mut O,
    ) -> Result<(), WriteRefusal>
        ensures writes { Writes (O.written output.old) (O.written output.new) (O.faults output.old) (O.faults output.new) (text form.now reply.now) result }
        ensures later { O.faults output.old ≤ O.faults output.new }
        ensures beside { O.beside output.new ≡ O.beside output.old };

    /// Whether a reply to a request of this form ends the session.
    fn is_last(&self, form: &Self::Form, reply: &Reply) -> bool
        ensures { result ≡ closes form.now reply.now };
}

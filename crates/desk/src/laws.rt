//! What a line looks like that asks something, and that the readings agree with it.

ghost use Rattle.std.specs.Prelude.{◌≡◌, ◌↔◌, ℕ, List as Seq, Ok, Err};
ghost use Rattle.site_events.specs.declared.event.Asked.{Asked};
ghost use Rattle.site_events.specs.declared.reply.LineRefusal.{LineRefusal};
ghost use Rattle.desk.specs.Asks.{asked_of};
ghost use Rattle.desk.specs.Says.{LineAsks, LineWrong};

/// What `read_line` makes of a line is what the line looks like: it asks what its words say, and
/// is refused for its first wrong word.
pub fn each_line_says_one_thing()
    ensures said { (line : Seq ℕ) → (asked : Asked) → (asked_of line ≡ Ok asked) ↔ LineAsks line asked }
    ensures wrong { (line : Seq ℕ) → (refusal : LineRefusal) → (asked_of line ≡ Err refusal) ↔ LineWrong line refusal }
{}

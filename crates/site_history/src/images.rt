//! Laws of images.

ghost use Rattle.std.specs.Prelude.{◌≢◌, ℕ, List, [], IsTrue};
ghost use Rattle.bank.specs.Content.{Image};
ghost use Rattle.bank.specs.View.{IsImage, OnlyContent};
ghost use Rattle.site_history.specs.Terms.{Terms};
ghost use Rattle.site_history.specs.Steps.{HistoryStep};
ghost use Rattle.site_history.specs.Images.{AgreeingReadAlike, Reads, IsSettled};

use bank::Bank;

/// Two images that agree in the journal's area and wherever the bytes of a history's files lie read alike: if one of them
/// reads as that history, so does the other. It does nothing when it is called; its clause is the law.
pub fn agreeing_read_alike()
    ensures { AgreeingReadAlike }
{}

/// A store whose journal begins with a closed gate, whatever a crash leaves, is settled for the history of no step: that is the
/// premise of a first run. It does nothing when it is called; its clause is the law.
pub fn fresh_store_is_settled<B: Bank>(bank: &B)
    ensures { IsTrue B.tells → (terms : Terms) → ((c : Image) → IsImage (B.view bank.now) c → c 0 0 ≢ 1) → IsSettled terms (B.view bank.now) [] }
{
    let _ = bank;
}

/// A store that reads as a history, and of which a crash leaves what it reads, is settled for that history: that is the premise
/// of a run after a crash. It does nothing when it is called; its clause is the law.
pub fn store_after_a_crash_is_settled<B: Bank>(bank: &B)
    ensures { IsTrue B.tells → (terms : Terms) → (steps : List HistoryStep) → ((area : ℕ) → OnlyContent area (B.view bank.now))
        → Reads terms (B.view bank.now).content steps → IsSettled terms (B.view bank.now) steps }
{
    let _ = bank;
}

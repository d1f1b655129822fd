//! What a reader that is fed its input in pieces owes.
ghost use Rattle.std.specs.Prelude.{ℕ, List, ◌++◌, IfOk, OnOk};

use efi_base::NoMemory;

/// A reader that is fed its input in pieces. Of an input that isn't of its grammar it tells so at the end, by its value;
/// want of memory alone is an answer besides.
pub trait Feed {
    /// What a reader was made with.
    type About;
    /// What came of an input.
    type Whole;

    /// These octets were fed to a reader that was made so.
    ghost has_fed: { Self.About → List ℕ → Self → Type 0 };

    /// This came of an input of these octets.
    ghost is_whole: { Self.About → List ℕ → Self.Whole → Type 0 };

    /// Reads on in the next octets.
    fn feed(&mut self, piece: &[u8]) -> Result<(), NoMemory>
        ensures { (about : Self.About) (fed : List ℕ) → has_fed about fed self.old → OnOk result (has_fed about (fed ++ piece.now) self.new) };

    /// What came of all that was fed.
    fn finish(self) -> Result<Self::Whole, NoMemory>
        ensures { (about : Self.About) (fed : List ℕ) → has_fed about fed self → IfOk result (is_whole about fed) };
}

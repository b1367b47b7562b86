// The words of a script: each sort of word is read by its type, or the place is told where it stops beginning one.
#![tactic(auto)]

ghost use Rattle.std.specs.Prelude.{ℕ, List, MatchResult};
ghost use Rattle.grammar.specs.Languages.{Stops};
ghost use Rattle.grammar.specs.Slots.{Slot, In};

pub mod literals;
pub mod numbers;

// A value that a word of one sort stands for.
pub trait Spelled: Sized {
    // The sort of word.
    ghost slot: { Slot };

    // The word stands for the value.
    ghost spells: { Self → List ℕ → Type 0 };

    // The value that a word stands for, or how many of its bytes begin a word of this sort.
    fn read(word: &[u8]) -> Result<Self, usize>
        ensures { MatchResult result (λ v. spells v word.now) (λ far. Stops (In slot) word.now far) };

    ghost fits: { (v : Self) (w : List ℕ) → spells v w → In slot w };
}

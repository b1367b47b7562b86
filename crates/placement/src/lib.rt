// Where a key lives: rosters of stores, and the policies that list the stores of a key.
#![tactic(auto)]

pub mod jump;
pub mod laws;
pub mod members;
pub mod placing;
pub mod policies;
pub mod policy;
pub mod rendezvous;
pub mod roster;
pub mod rosters;

ghost use Rattle.std.specs.Prelude.{◌≡◌, ℕ, ◌+◌, ◌<◌, ◌≤◌, [], ◌∷◌, ◌++◌, slice_index};
ghost use Rattle.placement.specs.Packing.{unpack, cut};

// A roster is one 64-bit word with its length: its numbers are read, pushed and cut by the three functions below.

// The number at a place of a packed word: sixteen 4-bit numbers, the first lowest.
#[tactic(auto, using(crate::proofs::Digits::get_or_unpack))]
fn number_at(word: u64, place: usize) -> usize
    requires { place < 16 }
    ensures { (result < 16) × (((n : ℕ) → place < n → result ≡ slice_index (unpack word n) place)) }
{
    ((word >> (4 * place)) % 16) as usize
}

// The word with a number behind its first `len`. Whatever lay there before does not count.
fn number_pushed(word: u64, len: usize, number: usize) -> u64
    requires { (len < 16) × (number < 16) }
    ensures { unpack result (len + 1) ≡ unpack word len ++ number ∷ [] }
{
    let below = word % (1u64 << (4 * len));
    below + ((number as u64) << (4 * len))
}

// The word with the number at a place taken out, and the later ones moved down by one.
fn number_cut(word: u64, place: usize) -> u64
    requires { place < 16 }
    ensures { (n : ℕ) → place ≤ n → unpack result n ≡ cut place (unpack word (n + 1)) }
{
    let below = word % (1u64 << (4 * place));
    let above = (word >> (4 * place)) >> 4;
    below + (above << (4 * place))
}

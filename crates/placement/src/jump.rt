// Jump: one member, by a walk over positions that a key's generator drives.
ghost use Rattle.std.specs.Prelude.{◌≡◌, ℕ, ◌<◌, ◌≤◌, [], ◌∷◌, length, slice_index};
ghost use Rattle.placement.specs.Jump.{position as position_of, Walks, jump as jump_rule};
ghost use Rattle.placement.specs.Rosters.{members};
ghost use Rattle.placement.specs.Walking.{jump_lawful};

use crate::placing::Placement;
use crate::roster::Roster;
use crate::{number_at, number_pushed};

const MULTIPLIER: u64 = 2862933555777941757;

// The greatest number of copies.
const GREATEST: usize = 1;

// The position, among `len`, at which a key's walk ends.
fn walk_end(key: u64, len: usize) -> usize
    requires { (1 ≤ len) × (len ≤ 16) }
    ensures { (result ≡ position_of key len) × (result < len) }
{
    let end = len as u64;
    let mut state = key;
    let mut at = 0;
    loop {
        state = state.wrapping_mul(MULTIPLIER).wrapping_add(1);
        let next = (at + 1) * 2147483648 / ((state >> 33) + 1);
        if next >= end {
            return at as usize;
        }
        at = next;
    }
}

#[derive(Clone, Copy)]
pub struct Jump;

impl Placement for Jump {
    ghost rule = { λ _. jump_rule };

    ghost lawful = { λ p. jump_lawful };

    #[tactic(auto, unfolding(crate::specs::Jump::jump))]
    fn greatest(&self) -> usize {
        GREATEST
    }

    fn list(&self, key: u64, roster: &Roster, _copies: usize) -> Roster
        ensures follows_rule { members result ≡ jump_rule.list key (members roster.now) _copies }
        ensures stores_kept { result.stores ≡ roster.now.stores }
        ensures walks { (b : ℕ) × Walks (length (members roster.now)) key 0 b × (members result ≡ slice_index (members roster.now) b ∷ []) }
    {
        let store = number_at(roster.word, walk_end(key, roster.len));
        Roster {
            word: number_pushed(0, 0, store),
            len: 1,
            stores: roster.stores,
        }
    }

    #[tactic(auto, using(crate::proofs::Digits::length_unpack, crate::specs::Walking::last_is), unfolding(crate::specs::Jump::jump, crate::specs::Rosters::members))]
    fn may_leave(&self, roster: &Roster, store: usize) -> bool {
        number_at(roster.word, roster.len - 1) == store
    }
}

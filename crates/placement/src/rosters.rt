// What is done with a roster.
ghost use Rattle.std.specs.Prelude.{◌≡◌, ℕ, ◌<◌, ◌≤◌, length, IfOk};
ghost use Rattle.lists.specs.Numbers.{member, nth, place_of};
ghost use Rattle.placement.specs.Rosters.{members, listing, first_of, with_store, without_store};

use crate::members::Members;
use crate::roster::{Roster, RosterFault};
use crate::{number_at, number_cut, number_pushed};

// The numbers 0 to 15 in one word, packed as a roster's members are.
const COUNT_UP: u64 = 0xfedc_ba98_7654_3210;

impl Roster {
    // The first `members` of `stores` stores.
    pub fn first(members: usize, stores: usize) -> Result<Roster, RosterFault>
        ensures lists { listing result ≡ first_of members stores }
        ensures stores_held { IfOk result (λ q. q.stores ≡ stores) }
    {
        if members < 1 || stores < members || 16 < stores {
            return Err(RosterFault::Size);
        }
        Ok(Roster {
            word: COUNT_UP,
            len: members,
            stores,
        })
    }

    // The number of stores, of which the members are some or all.
    pub fn stores(&self) -> usize
        ensures { result ≡ self.now.stores }
    {
        self.stores
    }

    // The number of members, 1 to 16.
    #[tactic(auto, using(crate::proofs::Holding::length_members))]
    pub fn len(&self) -> usize
        ensures { (result ≡ length (members self.now)) × ((1 ≤ result) × (result ≤ 16)) }
    {
        self.len
    }

    // The members, from the first to the last.
    #[tactic(auto, unfolding(crate::specs::Rosters::members))]
    pub fn iter(&self) -> Members
        ensures { result ≡ members self.now }
    {
        Members {
            word: self.word,
            left: self.len,
        }
    }

    // The member at a position, counted from 0: read where it lies, without a walk.
    pub fn member(&self, position: usize) -> Option<usize>
        ensures { result ≡ nth (members self.now) position }
    {
        if position < self.len {
            Some(number_at(self.word, position))
        } else {
            None
        }
    }

    // The position of a store, if it is a member.
    pub fn position(&self, store: usize) -> Option<usize>
        ensures { result ≡ place_of store (members self.now) }
    {
        self.iter().position(|member| member == store)
    }

    // Whether a store is a member.
    pub fn contains(&self, store: usize) -> bool
        ensures { result ≡ member store (members self.now) }
    {
        self.iter().any(|member| member == store)
    }

    // The roster with a store behind its last.
    pub fn with(&self, store: usize) -> Result<Roster, RosterFault>
        ensures lists { listing result ≡ with_store self.now.stores store (members self.now) }
        ensures stores_held { IfOk result (λ q. q.stores ≡ self.now.stores) }
    {
        if store >= self.stores {
            return Err(RosterFault::NotAStore);
        }
        if self.contains(store) {
            return Err(RosterFault::AlreadyMember);
        }
        let word = number_pushed(self.word, self.len, store);
        Ok(Roster {
            word,
            len: self.len + 1,
            stores: self.stores,
        })
    }

    // The roster without a member, the others in their order.
    pub fn without(&self, store: usize) -> Result<Roster, RosterFault>
        ensures lists { listing result ≡ without_store store (members self.now) }
        ensures stores_held { IfOk result (λ q. q.stores ≡ self.now.stores) }
    {
        let at = self.position(store).ok_or(RosterFault::NotAMember)?;
        if self.len < 2 {
            return Err(RosterFault::OnlyMember);
        }
        Ok(Roster {
            word: number_cut(self.word, at),
            len: self.len - 1,
            stores: self.stores,
        })
    }
}

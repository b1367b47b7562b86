// Rendezvous: the members of greatest weight for the key.
ghost use Rattle.std.specs.Prelude.{◌≡◌, ℕ, ◌^◌, ◌<◌, ◌≤◌, min, List, map, length, take};
ghost use Rattle.std.specs.List.{AllByRecursion};
ghost use Rattle.order.specs.Sorting.{sort};
ghost use Rattle.placement.specs.Packing.{unpack};
ghost use Rattle.placement.specs.Rosters.{members};
ghost use Rattle.placement.specs.Laws.{nearest};
ghost use Rattle.placement.specs.Rendezvous.{digest as digest_of, weight_at, ahead, rendezvous as rendezvous_rule, Heaviest};
ghost use Rattle.placement.specs.Candidates.{candidate, heavier, store_of, Numbered};
ghost use Rattle.placement.specs.Comparing.{heavier_ordered};
ghost use Rattle.placement.specs.Firsts.{rendezvous_lawful};

use crate::number_pushed;
use crate::placing::Placement;
use crate::roster::Roster;
use order::{Order, select_first};
use std::cmp::Reverse;

// The multiplier and the increment of the weights' generator, which works modulo 2^31.
const A: u64 = 1103515245;

const B: u64 = 12345;

const MODULUS: u64 = 2147483648;

// The greatest number of copies.
const GREATEST: usize = 4;

// A store and its weight for a key, in order: greater weight first, then smaller number.
#[derive(Clone, Copy, Default, PartialEq, Eq, PartialOrd, Ord)]
pub struct Candidate {
    pub weight: Reverse<u64>,
    pub store: usize,
}

impl Order for Candidate {
    ghost before = { heavier };

    ghost ordered = { heavier_ordered };

    fn comes_before(&self, other: &Candidate) -> bool {
        self <= other
    }
}

// A key folded to 31 bits.
fn digest(key: u64) -> u64
    ensures { (result ≡ digest_of key) × (result < 2 ^ 31) }
{
    (key ^ (key >> 31) ^ (key >> 62)) % MODULUS
}

// The weight of a store at a key's digest.
#[tactic(auto, using(std::proofs::lemmas::Nat::xor_lt, std::proofs::lemmas::Nat::mod_below))]
fn weight(digest: u64, store: usize) -> u64
    requires { (digest < 2 ^ 31) × (store < 16) }
    ensures { result ≡ weight_at digest store }
{
    let start = (A * store as u64 + B) % MODULUS;
    (A * (start ^ digest) + B) % MODULUS
}

// Writes the members of a roster, each with its weight, over a slice of as many.
fn weigh(key: u64, roster: &Roster, candidates: &mut [Candidate])
    requires { length candidates.old ≡ length (members roster.now) }
    ensures { candidates.new ≡ map (candidate key) (members roster.now) }
{
    let d = digest(key);
    for (place, store) in roster.iter().enumerate() {
        candidates[place] = Candidate {
            weight: Reverse(weight(d, store)),
            store,
        };
    }
}

// The stores of some candidates, packed.
fn packed(candidates: &[Candidate]) -> u64
    requires { (length candidates.now ≤ 16) × (AllByRecursion Numbered candidates.now) }
    ensures { unpack result (length candidates.now) ≡ map store_of candidates.now }
{
    let mut word = 0;
    for (place, candidate) in candidates.iter().enumerate() {
        word = number_pushed(word, place, candidate.store);
    }
    word
}

// The first members of a roster by weight, packed, selected in a slice of as many as it has.
fn heaviest(key: u64, roster: &Roster, count: usize, candidates: &mut [Candidate]) -> u64
    requires { (length candidates.old ≡ length (members roster.now)) × (count ≤ length candidates.old) }
    ensures { unpack result count ≡ take count (sort (ahead key) (members roster.now)) }
{
    weigh(key, roster, candidates);
    select_first(candidates, count);
    packed(&candidates[..count])
}

// How long a list is: as many as the copies, 1 to 4, or as the members where these are fewer.
fn list_len(copies: usize, members: usize) -> usize
    ensures { result ≡ min (nearest 4 copies) members }
{
    copies.min(GREATEST).max(1).min(members)
}

#[derive(Clone, Copy)]
pub struct Rendezvous;

impl Placement for Rendezvous {
    ghost rule = { λ _. rendezvous_rule };

    ghost lawful = { λ p. rendezvous_lawful };

    #[tactic(auto, unfolding(crate::specs::Rendezvous::rendezvous))]
    fn greatest(&self) -> usize {
        GREATEST
    }

    fn list(&self, key: u64, roster: &Roster, copies: usize) -> Roster
        ensures follows_rule { members result ≡ rendezvous_rule.list key (members roster.now) copies }
        ensures stores_kept { result.stores ≡ roster.now.stores }
        ensures heaviest { Heaviest key (members roster.now) (members result) }
    {
        let count = list_len(copies, roster.len);
        let mut room = [Candidate::default(); 16]; // fixed memory, no heap
        Roster {
            word: heaviest(key, roster, count, &mut room[..roster.len]),
            len: count,
            stores: roster.stores,
        }
    }

    #[tactic(auto, unfolding(crate::specs::Rendezvous::rendezvous))]
    fn may_leave(&self, _roster: &Roster, _store: usize) -> bool {
        true
    }
}

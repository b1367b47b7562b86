// An ordered list of 1 to 16 distinct store numbers, each below the number of stores.
ghost use Rattle.std.specs.Prelude.{◌≡◌, ℕ, ◌<◌, ◌≤◌, true};
ghost use Rattle.lists.specs.Numbers.{member, all_distinct};
ghost use Rattle.placement.specs.Packing.{unpack};

// The members, as 4-bit numbers in one word, the first lowest, with their number beside it. What lies in the word
// past the length does not count. The rule is part of the type: every roster has it, however it was made.
#[derive(Clone, Copy)]
pub struct Roster {
    pub(crate) word: u64,
    pub(crate) len: usize,
    pub(crate) stores: usize,
    ghost few: { stores ≤ 16 },
    ghost some: { 1 ≤ len },
    ghost fits: { len ≤ 16 },
    ghost distinct: { all_distinct (unpack word len) ≡ true },
    ghost below: { (s : ℕ) → member s (unpack word len) ≡ true → s < stores },
}

// Why there is no such roster.
#[derive(Clone, Copy, PartialEq, Eq, Debug)]
pub enum RosterFault {
    // not 1 to 16 members, or more members than stores
    Size,
    // the number is not below the number of stores
    NotAStore,
    AlreadyMember,
    NotAMember,
    // the last one cannot be taken out
    OnlyMember,
}

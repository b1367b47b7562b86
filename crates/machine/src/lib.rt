// The one-map machine, the calls over lent stores, and why the two agree.
//
// The machine is what a user has in mind: one map, a roster of stores and perhaps an open change. The service has no
// such map: its pairs lie in stores that each call lends it. specs/ defines both, over the same calls and answers, and
// proofs/ shows that for every list of calls they give the same answers, and that each store then holds exactly the
// machine's keys placed on it. Theory: the functions below do nothing, and their contracts are the statements.
#![tactic(auto)]

ghost use Rattle.std.specs.Prelude.{◌≡◌};
ghost use Rattle.machine.specs.Faults.{fault_number};
ghost use Rattle.machine.specs.Holds.{ListsAgree, OpeningHolds};
ghost use Rattle.machine.specs.Laws.{CopiesAreCounted, GetsReadBack};
ghost use Rattle.machine.specs.declared.fault.Fault.TheVariants.{Store, Entry};

pub mod answer;
pub mod call;
pub mod fault;
pub mod statement;
mod text;

use entry::fault::EntryFault;
use fault::{Fault, StoreRefusal};

// Both conversions are written out, so that a clause knows which fault a question mark makes.
impl From<StoreRefusal> for Fault {
    ghost from_gives = { λ e r. r ≡ Store e };

    fn from(own: StoreRefusal) -> Fault {
        Fault::Store(own)
    }
}

impl From<EntryFault> for Fault {
    ghost from_gives = { λ e r. r ≡ Entry e };

    fn from(fault: EntryFault) -> Fault {
        Fault::Entry(fault)
    }
}

impl Fault {
    // The number by which reports name this refusal; a store's fault has the store's own.
    // A match, since some variants hold data, and so have no numbers that a cast would give.
    pub fn number(&self) -> u8
        ensures { result ≡ fault_number self.now }
    {
        match self {
            Fault::BeyondLimit => 2,
            Fault::Store(refusal) => refusal.fault.number(),
            Fault::WrongStore => 5,
            Fault::InChange => 7,
            Fault::NoChange => 8,
            Fault::OtherStores => 9,
            Fault::Lacks(_) => 10,
            Fault::MayNotLeave => 11,
            Fault::Entry(_) => 12,
        }
    }
}

// Over empty stores and within the limits, an opening gives stores that hold the empty map.
pub fn openings_hold_the_empty_map()
    ensures { OpeningHolds }
{
    // The statement is the contract: there is nothing to do.
}

// From stores that hold a map on, every list of calls has the machine's answers, and the stores then hold its map.
pub fn lists_agree()
    ensures { ListsAgree }
{
    // The statement is the contract: there is nothing to do.
}

// The count of copies is the number of accepted steps that named a gained store, modulo 2^64.
#[tactic(auto, using(crate::proofs::Counting::copies_counted))]
pub fn copies_are_counted()
    ensures { CopiesAreCounted }
{
    // The statement is the contract: there is nothing to do.
}

// A get answers what the last accepted put of its key wrote, or none if a removal came since or there was none.
#[tactic(auto, using(crate::proofs::Reading::reads_back))]
pub fn gets_read_back()
    ensures { GetsReadBack }
{
    // The statement is the contract: there is nothing to do.
}

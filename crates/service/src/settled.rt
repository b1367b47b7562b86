// A service without a change: opening, join, leave and close.
ghost use Rattle.std.specs.Prelude.{◌≡◌, List, IfOk};
ghost use Rattle.store.specs.Meaning.{Meaning};
ghost use Rattle.machine.specs.Faults.{held_store};
ghost use Rattle.machine.specs.Lent as lent;
ghost use Rattle.serving.specs.Calls.{over, Gives};
ghost use Rattle.service.specs.Books.{settled_book, opened_with, opened, opened_placement, changed, changing, changing_book, changing_placement, settled_closed};

use crate::handed::{Closed, Kept};
use crate::states::{Moving, Settled};
use bank::Bank;
use machine::fault::{Fault, StoreRefusal};
use machine::statement::{Change, Cursor, Statement};
use placement::placing::Placement;
use placement::roster::Roster;
use serving::{Serving, all_lent};
use store::fault::StoreFault;
use walks::holding;

impl<P: Placement> Serving for Settled<P> {
    ghost rule = { λ s. P.Placement.rule s.placement };

    ghost book = { λ s. settled_book s };

    fn stores(&self) -> usize {
        self.roster.stores()
    }

    fn list(&self, key: u64) -> Roster {
        self.placement.list(key, &self.roster, self.copies)
    }
}

// The refusal of a store that should be empty and holds a pair.
fn held(store: usize) -> Fault
    ensures { result ≡ held_store store }
{
    Fault::Store(StoreRefusal {
        store,
        fault: StoreFault::HoldsPair,
    })
}

// The first few stores of a bank as a roster, where a service may open over them: within its limits, and all empty.
fn opening<P: Placement, B: Bank>(
    placement: &P,
    bank: &B,
    members: usize,
    copies: usize,
) -> Result<Roster, Fault>
    requires { B.Bank.standing bank.now }
    ensures { opened_with (B.Bank.stores bank.now) copies result ≡ lent.opening (P.Placement.rule placement.now) (B.Bank.stores bank.now) members copies }
{
    let roster = Roster::first(members, bank.len()).map_err(|_| Fault::BeyondLimit)?;
    if copies < 1 || placement.greatest() < copies {
        return Err(Fault::BeyondLimit);
    }
    if let Some(store) = holding(bank) {
        return Err(held(store));
    }
    Ok(roster)
}

impl<P: Placement> Settled<P> {
    // Opens a service over empty stores, the first few of which are the members. Refused beyond a limit, and then where a
    // store holds a pair; the placement is handed back.
    pub fn open<B: Bank>(
        placement: P,
        bank: &B,
        members: usize,
        copies: usize,
    ) -> Result<Settled<P>, Kept<P>>
        requires { B.Bank.standing bank.now }
        ensures opens { opened (B.Bank.stores bank.now) result ≡ lent.opening (P.Placement.rule placement) (B.Bank.stores bank.now) members copies }
        ensures placement_kept { opened_placement result ≡ placement }
    {
        // Each arm takes the placement: a closure for `map_err` would take it from the other.
        match opening(&placement, bank, members, copies) {
            Ok(roster) => Ok(Settled {
                placement,
                copies,
                roster,
                copied: 0,
            }),
            Err(fault) => Err(Kept {
                fault,
                service: placement,
            }),
        }
    }

    // The roster with a store in it, where the store may join.
    fn joining<B: Bank>(&self, bank: &B, store: usize) -> Result<Roster, Fault>
        requires { B.Bank.standing bank.now }
        ensures joins { changed (B.Bank.stores bank.now) self.now store result ≡ lent.join (P.Placement.rule self.now.placement) (over (B.Bank.stores bank.now) (settled_book self.now)) store }
        ensures alike { IfOk result (λ roster. roster.stores ≡ self.now.roster.stores) }
    {
        all_lent(self, bank)?;
        let target = self.roster.with(store).map_err(|_| Fault::WrongStore)?;
        if bank.count(store) != 0 {
            return Err(held(store));
        }
        Ok(target)
    }

    // The roster without a member, where the member may leave.
    #[tactic(auto, unfolding(placement::specs::Rosters::members))]
    fn leaving<B: Bank>(&self, bank: &B, store: usize) -> Result<Roster, Fault>
        requires { B.Bank.standing bank.now }
        ensures leaves { changed (B.Bank.stores bank.now) self.now store result ≡ lent.leave (P.Placement.rule self.now.placement) (over (B.Bank.stores bank.now) (settled_book self.now)) store }
        ensures alike { IfOk result (λ roster. roster.stores ≡ self.now.roster.stores) }
    {
        all_lent(self, bank)?;
        if !self.roster.contains(store) {
            return Err(Fault::WrongStore);
        }
        if !self.placement.may_leave(&self.roster, store) {
            return Err(Fault::MayNotLeave);
        }
        self.roster.without(store).map_err(|_| Fault::MayNotLeave)
    }

    // Opens a change that brings a store in.
    pub fn join<B: Bank>(self, bank: &B, store: usize) -> Result<Moving<P>, Kept<Settled<P>>>
        requires { B.Bank.standing bank.now }
        ensures joins { Gives (lent.join (P.Placement.rule self.placement) (over (B.Bank.stores bank.now) (settled_book self)) store) (changing result) (over (B.Bank.stores bank.now) (changing_book result)) }
        ensures placement_kept { changing_placement result ≡ self.placement }
    {
        let target = self.joining(bank, store);
        self.open_change(target, store)
    }

    // Opens a change that takes a member out. As `join` but for what decides the target.
    pub fn leave<B: Bank>(self, bank: &B, store: usize) -> Result<Moving<P>, Kept<Settled<P>>>
        requires { B.Bank.standing bank.now }
        ensures leaves { Gives (lent.leave (P.Placement.rule self.placement) (over (B.Bank.stores bank.now) (settled_book self)) store) (changing result) (over (B.Bank.stores bank.now) (changing_book result)) }
        ensures placement_kept { changing_placement result ≡ self.placement }
    {
        let target = self.leaving(bank, store);
        self.open_change(target, store)
    }
}

impl<P> Settled<P> {
    // Opens a change of a store to a target, where one was found.
    fn open_change(
        self,
        target: Result<Roster, Fault>,
        store: usize,
    ) -> Result<Moving<P>, Kept<Settled<P>>>
        requires { IfOk target (λ roster. roster.stores ≡ self.roster.stores) }
        ensures opens { (stores : List Meaning) → Gives (changed stores self store target) (changing result) (over stores (changing_book result)) }
        ensures placement_kept { changing_placement result ≡ self.placement }
    {
        // Each arm takes the service: a closure for `map_err` would take it from the other.
        match target {
            Ok(target) => Ok(Moving {
                settled: self,
                change: Change {
                    target,
                    cursor: Cursor::At(0),
                    store,
                },
            }),
            Err(fault) => Err(Kept {
                fault,
                service: self,
            }),
        }
    }

    // Ends the service.
    pub fn close(self) -> Closed<P>
        ensures { result ≡ settled_closed self }
    {
        let Settled {
            placement,
            copies: _,
            roster,
            copied,
        } = self;
        Closed {
            placement,
            statement: Statement {
                roster,
                change: None,
                copied,
            },
        }
    }
}

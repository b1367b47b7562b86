// A service of either kind, as whoever runs a list of calls holds it: every call is a value, and a join or leave in a
// change, or a step without one, is refused while the program runs. Each contract says itself that the stores stand and
// what stays as it was: a caller reads one contract alone.
#![tactic(auto)]

ghost use Rattle.std.specs.Prelude.{◌≡◌, cond, eqb, length, MatchResult};
ghost use Rattle.std.specs.Result.{ForOk};
ghost use Rattle.machine.specs.Lent as lent;
ghost use Rattle.machine.specs.Outcomes.{refuse, step_answer};
ghost use Rattle.machine.specs.declared.answer.Answer.TheVariants as answers;
ghost use Rattle.machine.specs.declared.fault.Fault.TheVariants as faults;
ghost use Rattle.service.specs.Books.{moving_book, changing, changing_book, changing_placement};
ghost use Rattle.serving.specs.Calls.{over, Gives};
ghost use Rattle.holder.specs.Books.{service_book, placement_of, service_closed, Replies};

use bank::Bank;
use machine::answer::{Answer, Moved};
use machine::call::Call;
use machine::fault::Fault;
use placement::placing::Placement;
use placement::roster::Roster;
use service::handed::{Closed, Kept, Stepped};
use service::states::{Moving, Settled};
use serving::Serving;

// A service of either type. What the two share is `Serving`; every other call chooses by the type, once, in a match.
pub enum Service<P> {
    Settled(Settled<P>),
    Moving(Moving<P>),
}

impl<P: Placement> Serving for Service<P> {
    ghost rule = { λ s. P.Placement.rule (placement_of s) };

    ghost book = { λ s. service_book s };

    fn stores(&self) -> usize {
        match self {
            Service::Settled(settled) => settled.stores(),
            Service::Moving(moving) => moving.stores(),
        }
    }

    fn list(&self, key: u64) -> Roster {
        match self {
            Service::Settled(settled) => settled.list(key),
            Service::Moving(moving) => moving.list(key),
        }
    }
}

// Why a call that the state does not take is refused: the stores are counted first.
fn refused<S: Serving, B: Bank>(service: &S, bank: &B, state: Fault) -> Fault
    requires { B.Bank.standing bank.now }
    ensures { result ≡ cond (eqb (length (B.Bank.stores bank.now)) (S.Serving.book service.now).stores) state faults.OtherStores }
{
    serving::all_lent(service, bank).err().unwrap_or(state)
}

// A join or a leave of a service in a change, which is refused.
fn refused_in_change<P: Placement, B: Bank>(
    moving: Moving<P>,
    bank: &B,
) -> (Service<P>, Result<usize, Fault>)
    requires { B.Bank.standing bank.now }
    ensures in_change { Gives (lent.all_lent (over (B.Bank.stores bank.now) (moving_book moving)) (refuse (over (B.Bank.stores bank.now) (moving_book moving)) faults.InChange)) result.1 (over (B.Bank.stores bank.now) (service_book result.0)) }
    ensures placement_kept { placement_of result.0 ≡ moving.settled.placement }
{
    let fault = refused(&moving, bank, Fault::InChange);
    (Service::Moving(moving), Err(fault))
}

// What a join or a leave handed back, as the holder hands it on. Either arm has a service of its own type.
fn handed<P>(res: Result<Moving<P>, Kept<Settled<P>>>) -> (Service<P>, Result<usize, Fault>)
    ensures result_handed { result.1 ≡ changing res }
    ensures book_handed { service_book result.0 ≡ changing_book res }
    ensures placement_handed { placement_of result.0 ≡ changing_placement res }
{
    match res {
        Ok(moving) => {
            let opened = moving.store();
            (Service::Moving(moving), Ok(opened))
        }
        Err(Kept { fault, service }) => (Service::Settled(service), Err(fault)),
    }
}

impl<P: Placement> Service<P> {
    // Opens a change that brings a store in; refused in a change.
    pub fn join<B: Bank>(self, bank: &B, store: usize) -> (Service<P>, Result<usize, Fault>)
        requires { B.Bank.standing bank.now }
        ensures joins { Gives (lent.join (P.Placement.rule (placement_of self)) (over (B.Bank.stores bank.now) (service_book self)) store) result.1 (over (B.Bank.stores bank.now) (service_book result.0)) }
        ensures placement_kept { placement_of result.0 ≡ placement_of self }
    {
        match self {
            Service::Settled(settled) => handed(settled.join(bank, store)),
            Service::Moving(moving) => refused_in_change(moving, bank),
        }
    }

    // Opens a change that takes a member out; refused in a change. As `join` but for the call that it hands on.
    pub fn leave<B: Bank>(self, bank: &B, store: usize) -> (Service<P>, Result<usize, Fault>)
        requires { B.Bank.standing bank.now }
        ensures leaves { Gives (lent.leave (P.Placement.rule (placement_of self)) (over (B.Bank.stores bank.now) (service_book self)) store) result.1 (over (B.Bank.stores bank.now) (service_book result.0)) }
        ensures placement_kept { placement_of result.0 ≡ placement_of self }
    {
        match self {
            Service::Settled(settled) => handed(settled.leave(bank, store)),
            Service::Moving(moving) => refused_in_change(moving, bank),
        }
    }

    // Moves one key, or ends the change; refused without one.
    pub fn step<B: Bank>(self, bank: &mut B) -> (Service<P>, Result<Option<Moved>, Fault>)
        requires { B.Bank.standing bank.old }
        ensures stands { B.Bank.standing bank.new }
        ensures steps { Gives (lent.step (P.Placement.rule (placement_of self)) (over (B.Bank.stores bank.old) (service_book self))) result.1 (over (B.Bank.stores bank.new) (service_book result.0)) }
        ensures placement_kept { placement_of result.0 ≡ placement_of self }
        ensures beyond_untouched { B.Bank.beyond bank.new ≡ B.Bank.beyond bank.old }
    {
        match self {
            Service::Settled(settled) => {
                let fault = refused(&settled, bank, Fault::NoChange);
                (Service::Settled(settled), Err(fault))
            }
            Service::Moving(moving) => match moving.step(bank) {
                Ok(Stepped::Done(settled)) => (Service::Settled(settled), Ok(None)),
                Ok(Stepped::Onward(moved, moving)) => (Service::Moving(moving), Ok(Some(moved))),
                Err(Kept { fault, service }) => (Service::Moving(service), Err(fault)),
            },
        }
    }

    // Any call of a list: a call is a value, so each is a case of its own.
    pub fn call<B: Bank>(self, bank: &mut B, asked: Call) -> (Service<P>, Answer)
        requires { B.Bank.standing bank.old }
        ensures stands { B.Bank.standing bank.new }
        ensures replies { Replies (lent.call (P.Placement.rule (placement_of self)) (over (B.Bank.stores bank.old) (service_book self)) asked) result.1 (over (B.Bank.stores bank.new) (service_book result.0)) }
        ensures placement_kept { placement_of result.0 ≡ placement_of self }
        ensures beyond_untouched { B.Bank.beyond bank.new ≡ B.Bank.beyond bank.old }
    {
        match asked {
            Call::Get(key) => {
                let found = serving::get(&self, bank, key);
                answered((self, found), Answer::Found)
            }
            Call::Put(key, value) => {
                let put = serving::put(&self, bank, key, value);
                answered((self, put), Answer::Stored)
            }
            Call::Remove(key) => {
                let held = serving::remove(&self, bank, key);
                answered((self, held), Answer::Removed)
            }
            Call::GetCalibration(key) => {
                let found = serving::get_entry(&self, bank, key);
                answered((self, found), Answer::FoundCalibration)
            }
            Call::PutCalibration(key, entry) => {
                let put = serving::put_entry(&self, bank, key, &entry);
                answered((self, put), Answer::Stored)
            }
            Call::GetReading(key) => {
                let found = serving::get_entry(&self, bank, key);
                answered((self, found), Answer::FoundReading)
            }
            Call::PutReading(key, entry) => {
                let put = serving::put_entry(&self, bank, key, &entry);
                answered((self, put), Answer::Stored)
            }
            Call::Join(store) => answered(self.join(bank, store), Answer::Opened),
            Call::Leave(store) => answered(self.leave(bank, store), Answer::Opened),
            Call::Step => answered(self.step(bank), stepped),
        }
    }
}

impl<P> Service<P> {
    // Ends the service, in whichever state it is: one line for each type, as in `stores`.
    pub fn close(self) -> Closed<P>
        ensures { result ≡ service_closed self }
    {
        match self {
            Service::Settled(settled) => settled.close(),
            Service::Moving(moving) => moving.close(),
        }
    }
}

// The answer that a call's result stands for, beside the service as the call left it.
fn answered<P, R, F: FnOnce(R) -> Answer>(
    handed: (Service<P>, Result<R, Fault>),
    answer: F,
) -> (Service<P>, Answer)
    requires { ForOk handed.1 (F.pre answer) }
    ensures service_handed { result.0 ≡ handed.0 }
    ensures answer_by { MatchResult handed.1 (λ r. F.post answer r result.1) (λ fault. result.1 ≡ answers.Refused fault) }
{
    let (service, res) = handed;
    (service, res.map_or_else(Answer::Refused, answer))
}

// What a step answers that moved a key, or ended the change.
fn stepped(moved: Option<Moved>) -> Answer
    ensures { result ≡ step_answer moved }
{
    moved.map_or(Answer::Done, Answer::Moved)
}

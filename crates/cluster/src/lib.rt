// Runs of calls: a service opened over a bank, a list of calls, and perhaps a close.
#![tactic(auto)]

ghost use Rattle.std.specs.Prelude.{◌≡◌, ◌≤◌, [], length, vec_len, vec_capacity, MatchResult};
ghost use Rattle.machine.specs.Lent as lent;
ghost use Rattle.serving.specs.Calls.{over};
ghost use Rattle.holder.specs.Books.{service_book, placement_of};
ghost use Rattle.cluster.specs.Runs.{RanAs, UnrunAs, ended};

pub mod runs;

use bank::Bank;
use holder::Service;
use machine::answer::Answer;
use machine::call::Call;
use placement::placing::Placement;
use runs::{End, Ending, Ran, Unrun};
use service::handed::Closed;
use service::states::Settled;
use std::alloc::Global;

// Makes the calls one after the other, and answers each behind the last; each gets the service and the stores as the
// one before left them.
fn call_all<P: Placement, B: Bank>(
    mut service: Service<P>,
    bank: &mut B,
    calls: &[Call],
    answers: &mut Vec<Answer>,
) -> Service<P>
    requires standing { B.Bank.standing bank.old }
    requires none_yet { (answers.old.items ≡ []) × (vec_len answers.old ≡ 0) }
    requires room { length calls.now ≤ vec_capacity answers.old }
    ensures stands { B.Bank.standing bank.new }
    ensures answers_all { answers.new.items ≡ lent.answers (P.Placement.rule (placement_of service)) (over (B.Bank.stores bank.old) (service_book service)) calls.now }
    ensures leaves { over (B.Bank.stores bank.new) (service_book result) ≡ lent.after (P.Placement.rule (placement_of service)) (over (B.Bank.stores bank.old) (service_book service)) calls.now }
    ensures placement_kept { placement_of result ≡ placement_of service }
    ensures beyond_untouched { B.Bank.beyond bank.new ≡ B.Bank.beyond bank.old }
{
    for asked in calls.iter() {
        let (next, answer) = service.call(bank, *asked);
        service = next;
        answers.push_reserved(answer);
    }
    service
}

// The end of a run that is asked for.
fn end<P>(service: Service<P>, ending: Ending) -> End<P>
    ensures { result ≡ ended ending service }
{
    match ending {
        Ending::LeaveOpen => End::Open(service),
        Ending::Close => End::Closed(service.close()),
    }
}

// Opens a service over the stores of a bank, the first few of which are the members, and makes the calls. For every
// placement, every bank of standing stores, all numbers and every list of calls: the opening is refused exactly as the
// one-map machine's is, stores that hold a pair aside; every answer is the machine's; after the last call each store
// holds exactly the machine's keys placed on it, with the machine's values; copies are counted; a get reads what was
// written last; and the service, or what it says when it is closed, is the machine's. Want of memory is refused
// before the first call.
pub fn run<P: Placement, B: Bank>(
    heap: Global,
    placement: P,
    bank: &mut B,
    members: usize,
    copies: usize,
    calls: &[Call],
    ending: Ending,
) -> Result<Ran<P>, Unrun<P>>
    requires { B.Bank.standing bank.old }
    ensures stands { B.Bank.standing bank.new }
    ensures runs_as_the_machine { MatchResult result
        (RanAs (P.Placement.rule placement) placement (B.Bank.stores bank.old) members copies calls.now ending (B.Bank.stores bank.new))
        (UnrunAs (P.Placement.rule placement) placement (B.Bank.stores bank.old) members copies (B.Bank.stores bank.new)) }
    ensures beyond_untouched { B.Bank.beyond bank.new ≡ B.Bank.beyond bank.old }
{
    let settled = Settled::open(placement, bank, members, copies).map_err(Unrun::Refused)?;
    let Ok(mut answers) = Vec::with_capacity(heap, calls.len()) else {
        let Closed {
            placement,
            statement: _,
        } = settled.close();
        return Err(Unrun::NoMemory(placement));
    };
    let service = call_all(Service::Settled(settled), bank, calls, &mut answers);
    Ok(Ran {
        answers,
        end: end(service, ending),
    })
}

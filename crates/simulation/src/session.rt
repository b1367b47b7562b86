// Runs the calls of a script over a bank, and writes the transcript.
ghost use Rattle.std.specs.Prelude.{◌≡◌, ◌++◌, replicate, Ok as Okay, string_bytes, IfOk, MatchResult, OnOk};
ghost use Rattle.machine.specs.Statements.{closing_of};
ghost use Rattle.transcript.specs.Texts.{row_text, counts_text, closing_text};
ghost use Rattle.transcript.specs.Woven.{calls_of, woven, counts_of};
ghost use Rattle.transcript.specs.declared.report.Report.TheVariants.{Ready as Started};
ghost use Rattle.simulation.specs.Ends.{Served, Ended, Unopened, run_fault};
ghost use Rattle.simulation.specs.Vacant.{vacant};

use bank::Bank;
use bank::first::First;
use cluster::run;
use cluster::runs::{Ending, Ran, Unrun};
use grammar::command::Command;
use grammar::fault::LineFault;
use grammar::opening::Opening;
use machine::answer::Answer;
use machine::call::Call;
use machine::statement::Statement;
use placement::policies::Policy;
use service::handed::Kept;
use std::alloc::{AllocError, Global};
use std::fmt::Write;
use transcript::fault::RunFault;
use transcript::report::Report;
use transcript::rows::{write_closing, write_row, write_rows};

// The calls that the commands among some rows make.
fn calls_in(heap: Global, rows: &[Result<Command, LineFault>]) -> Result<Vec<Call>, AllocError>
    ensures { IfOk result (λ v. v.items ≡ calls_of rows.now) }
{
    rows.iter()
        .filter_map(|row| (*row).ok().map(Call::from))
        .collect(heap)
}

// Writes how many pairs each store of a bank holds.
#[tactic(auto, using(transcript::proofs::Ends::counts_all))]
fn write_counts<B: Bank>(out: &mut String, bank: &B) -> Result<(), AllocError>
    requires { B.Bank.standing bank.now }
    ensures { OnOk result (string_bytes out.new ≡ string_bytes out.old ++ counts_text 0 (counts_of (B.Bank.stores bank.now))) }
{
    // The numbers themselves are printed, and a bank hands out no list of its stores.
    for store in 0..bank.len() {
        let count = bank.count(store);
        writeln!(out, "store {store} {count}")?;
    }
    Ok(())
}

// Writes the transcript of a script whose calls have run. A function and no type that is displayed, as what it calls: it
// writes from several values, and from a bank that has to be asked.
#[tactic(auto, using(std::proofs::Common::append_assoc))]
fn write_session<B: Bank>(
    heap: Global,
    rows: &[Result<Command, LineFault>],
    answers: &[Answer],
    bank: &B,
    statement: &Statement,
) -> Result<String, AllocError>
    requires { B.Bank.standing bank.now }
    ensures { IfOk result (λ s. string_bytes s ≡ row_text 1 (Okay Started) ++ (woven 2 rows.now answers.now ++ (counts_text 0 (counts_of (B.Bank.stores bank.now)) ++ closing_text (closing_of statement.now)))) }
{
    let mut out = String::new(heap);
    write_row(&mut out, 1, &Ok(Report::Ready))?;
    write_rows(&mut out, rows, answers)?;
    write_counts(&mut out, bank)?;
    write_closing(&mut out, statement)?;
    Ok(out)
}

// Why nothing ran. No `From`, since both types are other crates'.
fn fault_of(unrun: Unrun<Policy>) -> RunFault
    ensures { result ≡ run_fault unrun }
{
    match unrun {
        Unrun::Refused(Kept { fault, service: _ }) => RunFault::from(fault),
        Unrun::NoMemory(_) => RunFault::Memory,
    }
}

// Runs the rows over the first stores of a bank of sixteen, all of them empty. Heap, opening and rows
// come from `run_rows` beside one another: a struct would lengthen every clause that speaks of two of them.
pub(crate) fn run_session<B: Bank + Drop>(
    heap: Global,
    opening: &Opening,
    rows: &[Result<Command, LineFault>],
    bank: B,
) -> Result<String, RunFault>
    requires standing { B.Bank.standing bank }
    requires vacant { B.Bank.stores bank ≡ replicate 16 (vacant opening.now.cap) }
    requires limits { Served opening.now }
    ensures { MatchResult result (λ s. Ended opening.now rows.now (string_bytes s)) (Unopened opening.now) }
{
    let calls = calls_in(heap, rows)?;
    let mut stores = First {
        bank,
        few: opening.stores as usize,
    };
    let members = opening.members as usize;
    let copies = opening.copies as usize;
    let ran = run(
        heap,
        opening.policy,
        &mut stores,
        members,
        copies,
        calls.as_slice(),
        Ending::Close,
    );
    let Ran { answers, end } = ran.map_err(fault_of)?;
    let statement = end.statement();
    Ok(write_session(heap, rows, answers.as_slice(), &stores, &statement)?)
}

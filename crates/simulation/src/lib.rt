// Runs a script over stores of its own, and gives the transcript.
#![tactic(auto)]

ghost use Rattle.std.specs.Prelude.{◌≡◌, IfOk, string_bytes, MatchResult};
ghost use Rattle.transcript.specs.Sessions.{Transcript};
ghost use Rattle.simulation.specs.Ends.{Passes, Fails, refused_line, Prints};

mod building;
mod reading;
mod session;
mod stores;

use building::run_rows;
use reading::read_rows;
use script::commands::read_opening;
use script::lines::Lines;
use std::alloc::Global;
use transcript::fault::RunFault;
use transcript::rows::write_row;

// The most bytes that a script has.
const LONGEST: usize = 16384;

// The transcript of a script that runs, or why it does not.
fn run_script(heap: Global, script: &[u8]) -> Result<String, RunFault>
    ensures { MatchResult result (λ s. Passes script.now (string_bytes s)) (Fails script.now) }
{
    if script.len() > LONGEST {
        return Err(RunFault::TooLong);
    }
    let mut lines = Lines::new(script);
    let first = lines.next().unwrap_or(&[]);
    let opening = read_opening(first, 1)?;
    let rows = read_rows(heap, lines)?;
    run_rows(heap, &opening, rows.as_slice())
}

// There is no memory for a run. It is no `AllocError`: a run that has no memory for its answers hands none on.
#[derive(Clone, Copy)]
pub struct OutOfMemory {}

// The line that a refusal of a whole script is printed for, if it is printed.
fn refused_line(fault: &RunFault) -> Option<usize>
    ensures { result ≡ refused_line fault.now }
{
    match fault {
        RunFault::TooLong => Some(0),
        RunFault::Line(_) | RunFault::Service(_) => Some(1),
        RunFault::Memory => None,
    }
}

// The refusal of a whole script as text.
fn refusal(heap: Global, fault: RunFault) -> Result<String, OutOfMemory>
    ensures { IfOk result (λ s. Prints fault (string_bytes s)) }
{
    let line = refused_line(&fault).ok_or(OutOfMemory {})?;
    let mut out = String::new(heap);
    write_row(&mut out, line, &Err(fault)).map_err(|_| OutOfMemory {})?;
    Ok(out)
}

// What a script prints, whatever its bytes are; or want of memory.
#[tactic(auto, using(crate::proofs::Failures::failed))]
pub fn simulate(heap: Global, script: &[u8]) -> Result<String, OutOfMemory>
    ensures { IfOk result (λ s. Transcript script.now (string_bytes s)) }
{
    run_script(heap, script).or_else(|fault| refusal(heap, fault))
}

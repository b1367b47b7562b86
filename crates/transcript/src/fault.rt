// Why a run, or a line of it, is refused. Each fault carries the one below it whole.
use grammar::fault::LineFault;
use machine::fault::Fault;

#[derive(Clone, Copy)]
pub enum RunFault {
    // The script is longer than a script may be: number 2, printed for line 0.
    TooLong,
    // A line is outside the grammar: number 1.
    Line(LineFault),
    // The service refuses, with a number of its own.
    Service(Fault),
    // There is no memory for the run. No script is to blame, so this has no number.
    Memory,
}

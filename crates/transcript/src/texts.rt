// How reports and refusals are written: in each match every case has a text of its own, so the match is the table.
ghost use Rattle.std.specs.Prelude.{◌≡◌, Some as Shown};
ghost use Rattle.transcript.specs.Texts.{report_text, full_in, fault_text};
ghost use Rattle.transcript.specs.declared.fault.RunFault.TheVariants.{Line as OfLine, Service as OfService, Memory as NoMemory};

use crate::fault::RunFault;
use crate::report::Report;
use grammar::fault::LineFault;
use machine::fault::{Fault, StoreRefusal};
use std::alloc::{AllocError, AllocFailed};
use std::fmt;
use store::Put;
use store::fault::StoreFault;

impl From<LineFault> for RunFault {
    ghost from_gives = { λ e r. r ≡ OfLine e };

    fn from(line: LineFault) -> RunFault {
        RunFault::Line(line)
    }
}

impl From<Fault> for RunFault {
    ghost from_gives = { λ e r. r ≡ OfService e };

    fn from(service: Fault) -> RunFault {
        RunFault::Service(service)
    }
}

// Whatever finds no memory: three conversions, since a push that fails hands back its value with the refusal, and a
// formatter's error is another again.
impl From<AllocError> for RunFault {
    ghost from_gives = { λ _ r. r ≡ NoMemory };

    fn from(_fault: AllocError) -> RunFault {
        RunFault::Memory
    }
}

impl<T: Drop> From<AllocFailed<T>> for RunFault {
    ghost from_gives = { λ _ r. r ≡ NoMemory };

    fn from(_fault: AllocFailed<T>) -> RunFault {
        RunFault::Memory
    }
}

impl From<fmt::Error> for RunFault {
    ghost from_gives = { λ _ r. r ≡ NoMemory };

    fn from(_fault: fmt::Error) -> RunFault {
        RunFault::Memory
    }
}

impl fmt::Display for Report {
    ghost output = { λ r. Shown (report_text r) };

    fn fmt<W: fmt::Write>(&self, f: &mut fmt::Formatter<W>) -> fmt::Result {
        match self {
            Report::Ready => write!(f, "ok"),
            Report::Stored(Put::New) => write!(f, "new"),
            Report::Stored(Put::Replaced) => write!(f, "replaced"),
            Report::Calibration(entry) => write!(f, "cal {} {}", entry.firmware, entry.factor),
            Report::Reading(entry) => write!(f, "read {} {}", entry.millilitres, entry.state),
            Report::Nothing => write!(f, "none"),
            Report::Gone => write!(f, "gone"),
            Report::Opened(store) => write!(f, "open {store}"),
            Report::Moved(moved) => write!(f, "step {moved}"),
            Report::Done => write!(f, "done"),
        }
    }
}

// The full store that a fault names, if it names one.
fn full_store(fault: &Fault) -> Option<usize>
    ensures { result ≡ full_in fault.now }
{
    match *fault {
        Fault::Store(
            StoreRefusal {
                store,
                fault: StoreFault::Full,
            },
        ) => Some(store),
        _ => None,
    }
}

impl fmt::Display for RunFault {
    ghost output = { λ r. Shown (fault_text r) };

    fn fmt<W: fmt::Write>(&self, f: &mut fmt::Formatter<W>) -> fmt::Result {
        match self {
            RunFault::TooLong => write!(f, "no 2"),
            RunFault::Line(fault) => write!(f, "no 1 {}", fault.place().column),
            RunFault::Service(fault) => {
                let number = fault.number();
                match full_store(fault) {
                    Some(store) => write!(f, "no {number} {store}"),
                    None => write!(f, "no {number}"),
                }
            }
            RunFault::Memory => write!(f, "out of memory"),
        }
    }
}

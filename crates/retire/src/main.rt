// retire: three stores hold two copies of each entry; store 0 is retired while the service runs, and one entry is
// written halfway through the change. Prints every call's answer, then what is left.
#![tactic(auto)]

use bank::Bank;
use bank::beside::Beside;
use bank::empty::Empty;
use cells::Cell;
use cluster::run;
use cluster::runs::{Ending, Ran, Unrun};
use entry::calibration::Calibration;
use entry::reading::{Reading, State};
use machine::answer::Answer;
use machine::call::Call;
use machine::statement::Statement;
use placement::rendezvous::Rendezvous;
use service::handed::Kept;
use std::{fmt, io};
use store::{Put, Store};
use table::Table;

const CALLS: [Call; 13] = [
    Call::PutCalibration(
        1,
        Calibration {
            firmware: 12,
            factor: 250,
        },
    ),
    Call::PutCalibration(
        2,
        Calibration {
            firmware: 12,
            factor: 500,
        },
    ),
    Call::PutReading(
        3,
        Reading {
            millilitres: 1500,
            state: State::Valid,
        },
    ),
    Call::PutReading(
        4,
        Reading {
            millilitres: 0,
            state: State::Missing,
        },
    ),
    Call::Leave(0),
    Call::Step,
    Call::PutCalibration(
        1,
        Calibration {
            firmware: 13,
            factor: 251,
        },
    ),
    Call::Step,
    Call::Step,
    Call::Step,
    Call::GetCalibration(1),
    Call::Step,
    Call::GetReading(3),
];

// An answer, as text.
#[derive(Drop)]
struct Told<'a>(&'a Answer);

impl<'a> fmt::Display for Told<'a> {
    fn fmt<W: fmt::Write>(&self, f: &mut fmt::Formatter<W>) -> fmt::Result {
        match self.0 {
            Answer::Found(None) | Answer::FoundCalibration(None) | Answer::FoundReading(None) =>
                write!(f, "none"),
            Answer::Found(Some(value)) => write!(f, "words {} {}", value.a, value.b),
            Answer::FoundCalibration(Some(entry)) => write!(
                f,
                "calibration {} {}",
                entry.firmware, entry.factor
            ),
            Answer::FoundReading(Some(entry)) => write!(f, "reading {}", entry.millilitres),
            Answer::Stored(Put::New) => write!(f, "new"),
            Answer::Stored(Put::Replaced) => write!(f, "replaced"),
            Answer::Removed(held) => write!(f, "removed {held}"),
            Answer::Opened(store) => write!(f, "open {store}"),
            Answer::Moved(moved) => write!(f, "moved {moved}"),
            Answer::Done => write!(f, "done"),
            Answer::Refused(fault) => write!(f, "refused {}", fault.number()),
        }
    }
}

// One line for each answer.
fn print_answers(rt: &HostRuntime, answers: &[Answer]) -> io::Result<()> {
    for answer in answers {
        println!(rt; "{}", Told(answer))?;
    }
    Ok(())
}

// The count of each store, the copies made, and the members that are left.
fn print_end<B: Bank>(rt: &HostRuntime, bank: &B, statement: Statement) -> io::Result<()>
    requires { B.Bank.standing bank.now }
{
    // A bank knows its stores by their numbers alone.
    for store in 0..bank.len() {
        println!(rt; "store {store} {}", bank.count(store))?;
    }
    println!(rt; "copies {}", statement.copied)?;
    println!(rt; "members {}", statement.roster.len())
}

// Runs the calls over a bank, and prints what they did.
fn retire<B: Bank>(rt: &HostRuntime, bank: &mut B) -> io::Result<()>
    requires { B.Bank.standing bank.old }
{
    match run(rt.alloc(), Rendezvous, bank, 3, 2, &CALLS, Ending::Close) {
        Ok(Ran { answers, end }) => {
            let statement = end.statement();
            print_answers(rt, answers.as_slice())?;
            print_end(rt, bank, statement)
        }
        Err(Unrun::Refused(Kept { fault, service: _ })) => println!(rt;
            "refused {}",
            fault.number()
        ),
        Err(Unrun::NoMemory(_)) => println!(rt; "no memory"),
    }
}

fn main(rt: HostRuntime) -> io::Result<()> {
    let mut first = [Cell::Empty; 8];
    let mut second = [Cell::Empty; 8];
    let mut third = [Cell::Empty; 8];
    let mut bank = Beside {
        store: Table::make(&mut first, 8),
        rest: Beside {
            store: Table::make(&mut second, 8),
            rest: Beside {
                store: Table::make(&mut third, 8),
                rest: Empty {},
            },
        },
    };
    retire(&rt, &mut bank)
}

// The life of a service: opened, joined, stepped to the end of the change, joined again, and closed in that change.
// What the states forbid is tried on this program by checks/refused-programs.sh.
#![tactic(auto)]

use bank::Bank;
use bank::beside::Beside;
use bank::empty::Empty;
use cells::Cell;
use placement::placing::Placement;
use placement::rendezvous::Rendezvous;
use service::handed::{Kept, Stepped};
use service::states::{Moving, Settled};
use std::io;
use table::Table;

// Brings store 1 in, steps the change to its end, and only then brings store 2 in.
fn live<P: Placement + Drop, B: Bank>(
    rt: &HostRuntime,
    bank: &mut B,
    settled: Settled<P>,
) -> io::Result<()>
    requires { B.Bank.standing bank.old }
{
    match settled.join(bank, 1) {
        Err(kept) => refused(rt, kept),
        Ok(moving) => match moving.step(bank) {
            Ok(Stepped::Done(settled)) => match settled.join(bank, 2) {
                Err(kept) => refused(rt, kept),
                Ok(moving) => end(rt, moving),
            },
            Ok(Stepped::Onward(moved, moving)) => {
                end(rt, moving)?;
                println!(rt; "after it moved {}", moved.key)
            }
            Err(Kept { fault: _, service }) => end(rt, service),
        },
    }
}

// A service in a change is closed; it cannot be dropped.
fn end<P: Drop>(rt: &HostRuntime, moving: Moving<P>) -> io::Result<()> {
    let store = moving.store();
    drop(moving.close());
    println!(rt; "closed in a change of store {store}")
}

// Prints a refusal, and drops what it handed back.
fn refused<T: Drop>(rt: &HostRuntime, kept: Kept<T>) -> io::Result<()> {
    let Kept { fault, service: _ } = kept;
    println!(rt; "refused: {}", fault.number())
}

fn main(rt: HostRuntime) -> io::Result<()> {
    let mut first = [Cell::Empty; 4];
    let mut second = [Cell::Empty; 4];
    let mut third = [Cell::Empty; 4];
    let rest = Beside {
        store: Table::make(&mut third, 4),
        rest: Empty {},
    };
    let rest = Beside {
        store: Table::make(&mut second, 4),
        rest,
    };
    let mut bank = Beside {
        store: Table::make(&mut first, 4),
        rest,
    };
    match Settled::open(Rendezvous, &bank, 1, 1) {
        Ok(settled) => live(&rt, &mut bank, settled),
        Err(kept) => refused(&rt, kept),
    }
}

// Sixteen stores beside one another: eight, and eight before them.
//
// Each function is generic in the bank so far, whose standing and number of stores it asks for and tells again.
ghost use Rattle.std.specs.Prelude.{◌≡◌, ◌≤◌, ◌∷◌, ◌++◌, length, replicate, string_bytes, MatchResult};
ghost use Rattle.simulation.specs.Ends.{Served, Ended, Unopened};
ghost use Rattle.simulation.specs.Vacant.{vacant};
ghost use Rattle.simulation.specs.Rooms.{Room, Left};

use crate::session::run_session;
use crate::stores::{kept, mark};
use bank::Bank;
use bank::beside::Beside;
use bank::empty::Empty;
use cells::Cell;
use grammar::command::Command;
use grammar::fault::LineFault;
use grammar::opening::{Kind, Opening};
use layers::mixed::Mixed;
use layers::mixed::mark::Marked;
use log_store::Log;
use machine::fault::Fault;
use std::alloc::Global;
use table::Table;
use transcript::fault::RunFault;

// One store beside a bank, and four.
type One<'a, B> = Beside<Mixed<Table<'a>, Log<'a>>, B>;

type Four<'a, B> = One<'a, One<'a, One<'a, One<'a, B>>>>;

// The memory that is left for stores of one cap: each takes its cells and bytes from the front.
#[derive(Drop)]
struct Memory<'a> {
    cells: &'a mut [Cell],
    bytes: &'a mut [u8],
    cap: usize,
}

// A store that is empty before those of a bank, and the memory behind its own.
fn one_beside<'a, B: Bank>(memory: Memory<'a>, marked: Marked, rest: B) -> (One<'a, B>, Memory<'a>)
    requires standing { B.Bank.standing rest }
    requires few { length (B.Bank.stores rest) ≤ 15 }
    requires room { Room 1 memory }
    ensures stands { ⟦<One<'a, B> as Bank>⟧.standing result.0 }
    ensures vacant { ⟦<One<'a, B> as Bank>⟧.stores result.0 ≡ vacant memory.entry.cap ∷ B.Bank.stores rest }
    ensures left { Left 1 memory.entry result.1 }
{
    let Memory { cells, bytes, cap } = memory;
    let (own_cells, cells) = cells.split_at_mut(cap + 8);
    let (own_bytes, bytes) = bytes.split_at_mut(32 * (cap + 8) + 16);
    let store = kept(own_cells, own_bytes, cap, marked);
    (Beside { store, rest }, Memory { cells, bytes, cap })
}

// Four stores that are empty before those of a bank, and the memory behind theirs.
fn four_beside<'a, B: Bank>(kind: Kind, memory: Memory<'a>, rest: B) -> (Four<'a, B>, Memory<'a>)
    requires standing { B.Bank.standing rest }
    requires few { length (B.Bank.stores rest) ≤ 12 }
    requires room { Room 4 memory }
    ensures stands { ⟦<Four<'a, B> as Bank>⟧.standing result.0 }
    ensures vacant { ⟦<Four<'a, B> as Bank>⟧.stores result.0 ≡ replicate 4 (vacant memory.entry.cap) ++ B.Bank.stores rest }
    ensures left { Left 4 memory.entry result.1 }
{
    let even = mark(kind, true);
    let odd = mark(kind, false);
    let (one, memory) = one_beside(memory, odd, rest);
    let (two, memory) = one_beside(memory, even, one);
    let (three, memory) = one_beside(memory, odd, two);
    one_beside(memory, even, three)
}

// Eight stores that are empty before those of a bank, and the memory behind theirs.
fn eight_beside<'a, B: Bank>(
    kind: Kind,
    memory: Memory<'a>,
    rest: B,
) -> (Four<'a, Four<'a, B>>, Memory<'a>)
    requires standing { B.Bank.standing rest }
    requires few { length (B.Bank.stores rest) ≤ 8 }
    requires room { Room 8 memory }
    ensures stands { ⟦<Four<'a, Four<'a, B>> as Bank>⟧.standing result.0 }
    ensures vacant { ⟦<Four<'a, Four<'a, B>> as Bank>⟧.stores result.0 ≡ replicate 8 (vacant memory.entry.cap) ++ B.Bank.stores rest }
    ensures left { Left 8 memory.entry result.1 }
{
    let (four, memory) = four_beside(kind, memory, rest);
    four_beside(kind, memory, four)
}

// Runs the rows over eight stores before those of a bank, sixteen in all. That all stores stand was not proved over one
// type of sixteen, so the last eight are a type parameter.
fn run_over<B: Bank + Drop>(
    heap: Global,
    opening: &Opening,
    rows: &[Result<Command, LineFault>],
    memory: Memory,
    rest: B,
) -> Result<String, RunFault>
    requires standing { B.Bank.standing rest }
    requires vacant { B.Bank.stores rest ≡ replicate 8 (vacant opening.now.cap) }
    requires limits { Served opening.now }
    requires room { Room 8 memory }
    requires same { memory.cap ≡ opening.now.cap }
    ensures { MatchResult result (λ s. Ended opening.now rows.now (string_bytes s)) (Unopened opening.now) }
{
    let (bank, _) = eight_beside(opening.kind, memory, rest);
    run_session(heap, opening, rows, bank)
}

// Runs the rows over stores of their own, in memory of their own.
#[tactic(auto, using(crate::proofs::Machines::stores_refused))]
pub(crate) fn run_rows(
    heap: Global,
    opening: &Opening,
    rows: &[Result<Command, LineFault>],
) -> Result<String, RunFault>
    ensures { MatchResult result (λ s. Ended opening.now rows.now (string_bytes s)) (Unopened opening.now) }
{
    if opening.cap < 1 || 64 < opening.cap {
        return Err(RunFault::from(Fault::BeyondLimit));
    }
    if 16 < opening.stores {
        return Err(RunFault::from(Fault::BeyondLimit));
    }
    let cap = opening.cap as usize;
    let mut cells = vec![in heap; Cell::Empty; 16 * (cap + 8)]?;
    let mut bytes = vec![in heap; 0u8; 16 * (32 * (cap + 8) + 16)]?;
    let memory = Memory {
        cells: cells.as_mut_slice(),
        bytes: bytes.as_mut_slice(),
        cap,
    };
    let (eight, memory) = eight_beside(opening.kind, memory, Empty {});
    run_over(heap, opening, rows, memory, eight)
}

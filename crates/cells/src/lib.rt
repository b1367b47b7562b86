// The cells of a table and the walk over them, as data. The crate is mostly theory: `specs/` says
// what a walk meets, what cells hold and what each call leaves, and `proofs/` shows why the calls of
// a table follow the store's meaning. The calls are in the crate `table`.
#![tactic(auto)]

ghost use Rattle.std.specs.Prelude.{◌≡◌};
ghost use Rattle.cells.specs.Held.{key_of, value_of};
ghost use Rattle.cells.specs.Laws.{WalkLaws};

use store::value::Value;

// A place for one pair. A cell that held a pair and lost it is gone, and not empty, so that walks
// which passed it still do.
#[derive(Clone, Copy, PartialEq, Debug)]
pub enum Cell {
    Empty,
    Live { key: u64, value: Value },
    Gone,
}

impl Cell {
    // The key of a live cell. It and the value are asked for apart, each by a walk of its own.
    pub fn key(&self) -> Option<u64>
        ensures { result ≡ key_of self.now }
    {
        match self {
            Cell::Live { key, value: _ } => Some(*key),
            Cell::Empty | Cell::Gone => None,
        }
    }

    // The value of a live cell.
    pub fn value(&self) -> Option<Value>
        ensures { result ≡ value_of self.now }
    {
        match self {
            Cell::Live { key: _, value } => Some(*value),
            Cell::Empty | Cell::Gone => None,
        }
    }
}

// What the walk for a key met: the place of the key's own cell, and the first place whose cell is
// not live.
#[derive(Clone, Copy)]
pub struct Walked {
    pub found: Option<usize>,
    pub free: Option<usize>,
}

// What walks meet, in plain words.
pub fn walks_meet_their_keys()
    ensures { WalkLaws }
{
    // The statement is the contract: there is nothing to do.
}

// How a service ends: what it says of itself when it is closed.
use placement::roster::Roster;

// How far a change has come: the keys below the cursor have moved. `Past` lies above every key.
// Not an Option, whose `None` would lie below every key.
#[derive(Clone, Copy, PartialEq, Eq, PartialOrd, Ord, Debug)]
pub enum Cursor {
    At(u64),
    Past,
}

// An open change: the roster it leads to, how far it has come, and the store that joins or leaves.
#[derive(Clone, Copy)]
pub struct Change {
    pub target: Roster,
    pub cursor: Cursor,
    pub store: usize,
}

// The roster, the open change if there is one, and how many copies steps have made, modulo 2^64.
#[derive(Clone, Copy)]
pub struct Statement {
    pub roster: Roster,
    pub change: Option<Change>,
    pub copied: u64,
}

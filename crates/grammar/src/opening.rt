// What the first line of a script asks for.
use placement::policies::Policy;

// The kind of every store: tables, logs, or tables with an even number and logs with an odd one.
#[derive(Clone, Copy)]
pub enum Kind {
    Table,
    Log,
    Mixed,
}

// The word that the first line begins with. A type for one word, so that it is read as the others are.
#[derive(Clone, Copy)]
pub enum Keyword {
    Cluster,
}

// A cluster: how many stores there are, how many of them are members at first, the copies of each key, how keys are
// placed, the kind of the stores and how many pairs each takes in.
#[derive(Clone, Copy)]
pub struct Opening {
    pub stores: u64,
    pub members: u64,
    pub copies: u64,
    pub policy: Policy,
    pub kind: Kind,
    pub cap: u64,
}

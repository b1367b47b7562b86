// What a run is asked for, and what it gives.
#![tactic(auto)]

ghost use Rattle.std.specs.Prelude.{◌≡◌};
ghost use Rattle.cluster.specs.Runs.{statement_in};

use holder::Service;
use machine::answer::Answer;
use machine::statement::Statement;
use service::handed::{Closed, Kept};

// What becomes of the service after the last call: a value, as the calls are, so that one contract states both ends.
#[derive(Clone, Copy)]
pub enum Ending {
    LeaveOpen,
    Close,
}

// The service as the last call left it, or what it said when it was closed: two types, hence an enum.
pub enum End<P> {
    Open(Service<P>),
    Closed(Closed<P>),
}

impl<P: Drop> End<P> {
    // What the service says at its end: it is closed now, if it is open still.
    pub fn statement(self) -> Statement
        ensures { result ≡ statement_in self }
    {
        match self {
            End::Open(service) => service.close().statement,
            End::Closed(closed) => closed.statement,
        }
    }
}

// The answers, call by call, and the end. As many answers as the caller's list has calls, so no array holds them.
pub struct Ran<P> {
    pub answers: Vec<Answer>,
    pub end: End<P>,
}

// Why no call ran: the opening was refused, or there was no memory for the answers. The placement is handed back.
pub enum Unrun<P> {
    Refused(Kept<P>),
    NoMemory(P),
}

// What the calls of a service hand back.
use crate::states::{Moving, Settled};
use machine::answer::Moved;
use machine::fault::Fault;
use machine::statement::Statement;

// A refusal, with what was handed in as it was.
pub struct Kept<S> {
    pub fault: Fault,
    pub service: S,
}

// What a step gives back: the change is done, or a key has moved. An enum, since the service is of another type in each.
pub enum Stepped<P> {
    Done(Settled<P>),
    Onward(Moved, Moving<P>),
}

// A closed service: its placement, and what it says of itself.
#[derive(Drop)]
pub struct Closed<P> {
    pub placement: P,
    pub statement: Statement,
}

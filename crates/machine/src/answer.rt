// What the calls answer.
use crate::fault::Fault;
use entry::calibration::Calibration;
use entry::reading::Reading;
use store::Put;
use store::value::Value;

// A step that moved a key: the store that gained it, and the one that lost it.
#[derive(Clone, Copy)]
pub struct Moved {
    pub key: u64,
    pub gained: Option<usize>,
    pub lost: Option<usize>,
}

// What one call of a list answers, refusals among the cases: each call of a service has a `Result` of its own type, and
// only here, where calls of all kinds stand in one list, do their answers.
#[derive(Clone, Copy)]
pub enum Answer {
    Found(Option<Value>),
    FoundCalibration(Option<Calibration>),
    FoundReading(Option<Reading>),
    // New or replaced.
    Stored(Put),
    // Whether it was there.
    Removed(bool),
    // A change is open, of this store.
    Opened(usize),
    Moved(Moved),
    // The step found no key left, and the change is done.
    Done,
    Refused(Fault),
}

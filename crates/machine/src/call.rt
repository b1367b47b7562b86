// The calls that a list of calls is made of.
use entry::calibration::Calibration;
use entry::reading::Reading;
use store::value::Value;

#[derive(Clone, Copy)]
pub enum Call {
    // The value at a key.
    Get(u64),
    Put(u64, Value),
    Remove(u64),
    // The typed calls: the entry at a key, and an entry put there.
    GetCalibration(u64),
    PutCalibration(u64, Calibration),
    GetReading(u64),
    PutReading(u64, Reading),
    // Opens a change that brings a store in, and one that takes a member out.
    Join(usize),
    Leave(usize),
    // Moves one key to where the change puts it, or ends the change.
    Step,
}

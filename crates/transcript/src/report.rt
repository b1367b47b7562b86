// What a line that is accepted says.
use entry::calibration::Calibration;
use entry::reading::Reading;
use machine::answer::Moved;
use store::Put;

#[derive(Clone, Copy)]
pub enum Report {
    // The first line: the cluster is open.
    Ready,
    // An entry was put: new, or in the place of another.
    Stored(Put),
    // The entry at a key.
    Calibration(Calibration),
    Reading(Reading),
    // There is nothing at the key.
    Nothing,
    // The key was taken out.
    Gone,
    // A change is open, of this store.
    Opened(usize),
    // A step moved a key, or found none left.
    Moved(Moved),
    Done,
}

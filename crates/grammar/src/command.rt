// What a line after the first asks for.
use entry::calibration::Calibration;
use entry::reading::Reading;

// The first word of such a line.
#[derive(Clone, Copy)]
pub enum Verb {
    Cal,
    Read,
    Get,
    Del,
    Join,
    Leave,
    Step,
}

#[derive(Clone, Copy)]
pub enum Command {
    // Puts a calibration, or a reading, at a key.
    Cal { key: u64, entry: Calibration },
    Read { key: u64, entry: Reading },
    // The entry at a key.
    Get { key: u64 },
    // Takes a key out.
    Del { key: u64 },
    // Opens a change that brings a store in, or takes a member out.
    Join { store: u64 },
    Leave { store: u64 },
    // Moves one key of the open change, or ends it.
    Step,
}

// What an image of a log holds, as text: its cap, its live pairs by ascending key, and how many of
// its records are superseded.
//
// That the log is standing is the one premise that its calls have, so each contract of a standing log says it.
#![tactic(auto)]

ghost use Rattle.std.specs.Prelude.{◌≡◌, true, ◌++◌, string_bytes, MatchResult, OnOk};
ghost use Rattle.log_theory.specs.Tape.{tape, pairs_of, Standing};
ghost use Rattle.log_theory.specs.Image.{is_image};
ghost use Rattle.inspection.specs.Text.{pair_lines, log_text, image_text};
ghost use Rattle.inspection.specs.Faults.{Refusal, from_store, from_text};

pub mod fault;
mod walk;

use fault::InspectFault;
use log_store::Log;
use std::alloc::AllocError;
use std::fmt;
use store::Store;
use store::fault::StoreFault;
use walk::Pairs;

// The length of a slice that has slots enough for every cap. An image is to be inspected in a slice
// as long as this, or longer.
pub const ROOM: usize = 131_088;

impl From<StoreFault> for InspectFault {
    ghost from_gives = { λ e r. r ≡ from_store e };

    fn from(fault: StoreFault) -> Self {
        InspectFault::Refused(fault)
    }
}

impl From<AllocError> for InspectFault {
    ghost from_gives = { λ e r. r ≡ from_text };

    fn from(_fault: AllocError) -> Self {
        InspectFault::NoMemory
    }
}

impl From<fmt::Error> for InspectFault {
    ghost from_gives = { λ e r. r ≡ from_text };

    fn from(_fault: fmt::Error) -> Self {
        InspectFault::NoMemory
    }
}

// Adds a line for each pair, by ascending key. It and `add_log` write line by line what the log's calls tell.
fn add_pairs(out: &mut String, log: &Log) -> Result<(), AllocError>
    requires { Standing (tape log.now.bytes.now log.now.used) log.now.cap }
    ensures { OnOk result (string_bytes out.new ≡ string_bytes out.old ++ pair_lines (pairs_of (tape log.now.bytes.now log.now.used))) }
{
    for live in Pairs::of(log) {
        write!(out, "{live}")?;
    }
    Ok(())
}

// Adds what a log holds.
fn add_log(out: &mut String, log: &Log) -> Result<(), AllocError>
    requires { Standing (tape log.now.bytes.now log.now.used) log.now.cap }
    ensures { OnOk result (string_bytes out.new ≡ string_bytes out.old ++ log_text (tape log.now.bytes.now log.now.used) log.now.cap) }
{
    let cap = log.cap();
    let superseded = log.superseded();
    writeln!(out, "cap {cap}")?;
    add_pairs(out, log)?;
    writeln!(out, "superseded {superseded}")
}

// Adds what the image in the first `n` bytes holds, or refuses bytes that are no image.
// The bytes behind the image are the room in which the log is opened: so `n` stands beside them.
pub fn describe(out: &mut String, bytes: &mut [u8], n: usize) -> Result<(), InspectFault>
    ensures tells_the_image { MatchResult result (λ _. (is_image bytes.old n ≡ true) × (string_bytes out.new ≡ string_bytes out.old ++ image_text bytes.old n)) (λ f. Refusal bytes.old n f) }
    ensures bytes_stay { bytes.new ≡ bytes.old }
{
    Log::check_image(bytes, n)?;
    let log = Log::open(bytes, n);
    add_log(out, &log)?;
    Ok(())
}

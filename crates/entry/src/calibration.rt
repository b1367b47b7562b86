// Calibrations: the firmware of a meter, and how much water one pulse of it stands for.
ghost use Rattle.std.specs.Prelude.{◌≡◌};
ghost use Rattle.entry.specs.Calibrations.{within, calibration_kind};
ghost use Rattle.std.proofs.Common.{rules};

use crate::Entry;
use crate::fault::EntryFault;
use store::value::Value;

// Legal with a firmware below 2^32 and a factor of 1 to 1,000,000 millilitres per pulse. The first word is
// factor × 2^32 + firmware, the second is 1.
#[derive(Clone, Copy, PartialEq, Eq, Debug)]
pub struct Calibration {
    pub firmware: u64,
    pub factor: u64,
}

impl Calibration {
    // Whether both numbers keep their limits.
    pub fn is_legal(&self) -> bool
        ensures { result ≡ within self.now }
    {
        self.firmware < 1 << 32 && 1 <= self.factor && self.factor <= 1_000_000
    }
}

impl Entry for Calibration {
    ghost kind = { calibration_kind };

    ghost faithful = { Prim.search rules };

    fn encode(&self) -> Result<Value, EntryFault> {
        if !self.is_legal() {
            return Err(EntryFault::BeyondLimit);
        }
        Ok(Value {
            a: (self.factor << 32) + self.firmware,
            b: 1,
        })
    }

    fn decode(value: Value) -> Result<Calibration, EntryFault> {
        let entry = Calibration {
            firmware: value.a % (1 << 32),
            factor: value.a >> 32,
        };
        if value.b != 1 || !entry.is_legal() {
            return Err(EntryFault::OtherKind);
        }
        Ok(entry)
    }
}

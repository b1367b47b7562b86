// Typed entries: each kind turns an entry into the two words that a store holds, and back.
#![tactic(auto)]

ghost use Rattle.std.specs.Prelude.{◌≡◌};
ghost use Rattle.entry.specs.Figures.{FiguresHold};
ghost use Rattle.entry.specs.Kinds.{Kind, Faithful, encoded, decoded};

pub mod calibration;
pub mod fault;
pub mod reading;
mod text;

use fault::EntryFault;
use store::value::Value;

// A kind of entry. Two words are legal for it exactly when some legal entry gives them, and then only one does.
pub trait Entry: Sized {
    ghost kind: { Kind Self };

    // The entry's two words. Refused where the entry is beyond a limit of its kind.
    fn encode(&self) -> Result<Value, EntryFault>
        ensures { result ≡ encoded kind self.now };

    // The one legal entry that gives these words. Refused where there is none.
    fn decode(value: Value) -> Result<Self, EntryFault>
        ensures { result ≡ decoded kind value };

    ghost faithful: { Faithful kind };
}

// The worked figures follow from the definitions. The function does nothing: its contract is the statement.
pub fn figures_hold()
    ensures { FiguresHold }
{
    // The statement is the contract: there is nothing to do.
}

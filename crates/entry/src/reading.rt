// Readings: what a meter has counted, and how far that is to be trusted.
ghost use Rattle.std.specs.Prelude.{◌≡◌};
ghost use Rattle.entry.specs.Kinds.{or_other_kind};
ghost use Rattle.entry.specs.Readings.{state_word, state_of, sound_in, reading_kind};
ghost use Rattle.std.proofs.Common.{rules};

use crate::Entry;
use crate::fault::EntryFault;
use store::value::Value;

#[derive(Clone, Copy, PartialEq, Eq, Debug)]
pub enum State {
    Valid,
    Saturated,
    Missing,
}

// Legal unless it is missing and yet has millilitres. The first word is the millilitres, the second 2 + 256 × state,
// with valid 0, saturated 1 and missing 2.
#[derive(Clone, Copy, PartialEq, Eq, Debug)]
pub struct Reading {
    pub millilitres: u64,
    pub state: State,
}

// The second word of a reading in a state.
// Literal cases here and below: a word that is stored is written where it is meant, and never computed.
impl From<State> for u64 {
    ghost from_gives = { λ state r. r ≡ state_word state };

    fn from(state: State) -> u64 {
        match state {
            State::Valid => 2,
            State::Saturated => 258,
            State::Missing => 514,
        }
    }
}

// The state that a second word stands for.
impl TryFrom<u64> for State {
    type Error = EntryFault;

    ghost try_from_gives = { λ word r. r ≡ or_other_kind (state_of word) };

    fn try_from(word: u64) -> Result<State, EntryFault> {
        match word {
            2 => Ok(State::Valid),
            258 => Ok(State::Saturated),
            514 => Ok(State::Missing),
            _ => Err(EntryFault::OtherKind),
        }
    }
}

impl Reading {
    // Whether it is legal: a missing one has no millilitres.
    pub fn is_legal(&self) -> bool
        ensures { result ≡ sound_in self.now.state self.now.millilitres }
    {
        self.state != State::Missing || self.millilitres == 0
    }
}

impl Entry for Reading {
    ghost kind = { reading_kind };

    ghost faithful = { Prim.search rules };

    fn encode(&self) -> Result<Value, EntryFault> {
        if !self.is_legal() {
            return Err(EntryFault::BeyondLimit);
        }
        Ok(Value {
            a: self.millilitres,
            b: self.state.into(),
        })
    }

    fn decode(value: Value) -> Result<Reading, EntryFault> {
        let entry = Reading {
            millilitres: value.a,
            state: State::try_from(value.b)?,
        };
        if !entry.is_legal() {
            return Err(EntryFault::OtherKind);
        }
        Ok(entry)
    }
}

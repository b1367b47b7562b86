// How a state is written.
ghost use Rattle.std.specs.Prelude.{Some as Shown};
ghost use Rattle.entry.specs.Texts.{state_text};

use crate::reading::State;
use std::fmt;

impl fmt::Display for State {
    ghost output = { λ s. Shown (state_text s) };

    fn fmt<W: fmt::Write>(&self, f: &mut fmt::Formatter<W>) -> fmt::Result {
        match self {
            State::Valid => write!(f, "valid"),
            State::Saturated => write!(f, "saturated"),
            State::Missing => write!(f, "missing"),
        }
    }
}

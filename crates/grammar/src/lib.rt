// What a line of a script may say, and where a line that says nothing stops. Theory: types, definitions and lemmas;
// the crates `words` and `script` read lines by them.
#![tactic(auto)]

ghost use Rattle.std.specs.Prelude.{◌≡◌};
ghost use Rattle.grammar.specs.Faults.{place_of};
ghost use Rattle.grammar.specs.Lines.{call_of, Settles};
ghost use Rattle.grammar.specs.declared.fault.LineFault.TheVariants.{Word};

pub mod command;
pub mod fault;
pub mod opening;

use command::Command;
use fault::{LineFault, Place, WordFault};
use machine::call::Call;

impl From<WordFault> for LineFault {
    ghost from_gives = { λ e r. r ≡ Word e };

    fn from(word: WordFault) -> LineFault {
        LineFault::Word(word)
    }
}

impl LineFault {
    // Where the line stops beginning a legal one. A field of each variant is read: nothing is converted.
    pub fn place(&self) -> Place
        ensures { result ≡ place_of self.now }
    {
        match self {
            LineFault::Word(fault) => fault.place,
            LineFault::Trailing(place) => *place,
        }
    }
}

// The call that a command makes.
impl From<Command> for Call {
    ghost from_gives = { λ command r. r ≡ call_of command };

    fn from(command: Command) -> Call {
        match command {
            Command::Cal { key, entry } => Call::PutCalibration(key, entry),
            Command::Read { key, entry } => Call::PutReading(key, entry),
            Command::Get { key } => Call::Get(key),
            Command::Del { key } => Call::Remove(key),
            Command::Join { store } => Call::Join(store as usize),
            Command::Leave { store } => Call::Leave(store as usize),
            Command::Step => Call::Step,
        }
    }
}

// The grammar leaves no choice: a line has one command or opening at most, or one column.
pub fn grammar_settles()
    ensures { Settles }
{
    // The statement is the contract: there is nothing to do.
}

// What a question says, and what can be wrong with its words.
ghost use Rattle.std.specs.Prelude.{◌≡◌, Some as Shown};
ghost use Rattle.locator.specs.declared.words.LocateFault.TheVariants.{Word as TheWord, Memory as NoMemory};
ghost use Rattle.locator.specs.Messages.{part_text, reason_text, fault_text};

use placement::policies::Policy;
use std::alloc::{AllocError, AllocFailed};
use std::fmt;

// A question: the policy, the number of members (stores 0 and up form the roster), the copies and the keys.
#[derive(Drop)]
pub struct Question {
    pub policy: Policy,
    pub members: usize,
    pub copies: usize,
    pub keys: Vec<u64>,
}

// Why a word is refused.
#[derive(Clone, Copy)]
pub enum Reason {
    Missing,
    NotAPolicy,
    NotANumber,
    NotOneToSixteen,
}

impl Reason {
    // The fault of the word at a place that is wrong for this reason.
    pub(crate) fn at(self, place: usize) -> WordFault
        ensures { (result.place ≡ place) × (result.reason ≡ self) }
    {
        WordFault {
            place,
            reason: self,
        }
    }
}

// The first word that is wrong, by its place from 0.
#[derive(Clone, Copy)]
pub struct WordFault {
    pub place: usize,
    pub reason: Reason,
}

#[derive(Clone, Copy)]
pub enum LocateFault {
    Word(WordFault),
    Memory,
}

impl From<WordFault> for LocateFault {
    ghost from_gives = { λ e r. r ≡ TheWord e };

    fn from(e: WordFault) -> LocateFault {
        LocateFault::Word(e)
    }
}

impl From<AllocError> for LocateFault {
    ghost from_gives = { λ _ r. r ≡ NoMemory };

    fn from(_e: AllocError) -> LocateFault {
        LocateFault::Memory
    }
}

impl From<fmt::Error> for LocateFault {
    ghost from_gives = { λ _ r. r ≡ NoMemory };

    fn from(_e: fmt::Error) -> LocateFault {
        LocateFault::Memory
    }
}

impl<T: Drop> From<AllocFailed<T>> for LocateFault {
    ghost from_gives = { λ _ r. r ≡ NoMemory };

    fn from(_e: AllocFailed<T>) -> LocateFault {
        LocateFault::Memory
    }
}

impl fmt::Display for Reason {
    ghost output = { λ r. Shown (reason_text r) };

    fn fmt<W: fmt::Write>(&self, f: &mut fmt::Formatter<W>) -> fmt::Result {
        match self {
            Reason::Missing => write!(f, "is missing"),
            Reason::NotAPolicy => write!(f, "is neither rendezvous nor jump"),
            Reason::NotANumber => write!(f, "is not a number of 64 bits"),
            Reason::NotOneToSixteen => write!(f, "is not from 1 to 16"),
        }
    }
}

impl fmt::Display for WordFault {
    ghost output = { λ f. Shown (fault_text f) };

    fn fmt<W: fmt::Write>(&self, f: &mut fmt::Formatter<W>) -> fmt::Result {
        let part = Part(self.place);
        let reason = self.reason;
        write!(f, "{part} {reason}")
    }
}

// The part of the question that stands at a place.
#[derive(Clone, Copy)]
struct Part(usize);

impl fmt::Display for Part {
    ghost output = { λ p. Shown (part_text p.0) };

    fn fmt<W: fmt::Write>(&self, f: &mut fmt::Formatter<W>) -> fmt::Result {
        match self.0 {
            0 => write!(f, "POLICY"),
            1 => write!(f, "MEMBERS"),
            2 => write!(f, "COPIES"),
            _ => write!(f, "KEY"),
        }
    }
}

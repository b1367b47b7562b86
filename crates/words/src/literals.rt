// Words that are spelled out: verbs, the keyword of the first line, policies, kinds of store, states of a reading.
ghost use Rattle.std.specs.Prelude.{◌≡◌};
ghost use Rattle.grammar.specs.Slots.{state, policy, kind, verb, keyword, common, furthest};
ghost use Rattle.grammar.specs.Spelling.{state_text, policy_text, kind_text, verb_text, keyword_text};
ghost use Rattle.words.specs.Texts.{texts};
ghost use Rattle.std.proofs.Common.{rules};

use crate::Spelled;
use entry::reading::State;
use grammar::command::Verb;
use grammar::opening::{Keyword, Kind};
use placement::policies::Policy;

// How many bytes `text` and `word` have in common at their front.
fn shared(text: &[u8], word: &[u8]) -> usize
    ensures { result ≡ common text.now word.now }
{
    text.iter().zip(word).take_while(|(a, b)| a == b).count()
}

// How far `text` goes with the one of `words` with which it goes furthest.
fn astray(text: &[u8], words: &[&[u8]]) -> usize
    ensures { result ≡ furthest (texts words.now) text.now }
{
    words
        .iter()
        .map(|word| shared(text, word))
        .max()
        .unwrap_or(0)
}

// One impl for each type: words are matched as literal cases, and an impl that a macro of the repository writes is not taken.
impl Spelled for Verb {
    ghost slot = { verb };

    ghost spells = { λ v w. w ≡ verb_text v };

    ghost fits = { Prim.search rules };

    fn read(word: &[u8]) -> Result<Verb, usize> {
        match std::str::from_utf8(word).unwrap_or("") {
            "cal" => Ok(Verb::Cal),
            "read" => Ok(Verb::Read),
            "get" => Ok(Verb::Get),
            "del" => Ok(Verb::Del),
            "join" => Ok(Verb::Join),
            "leave" => Ok(Verb::Leave),
            "step" => Ok(Verb::Step),
            _ => Err(astray(
                word,
                &[b"cal", b"read", b"get", b"del", b"join", b"leave", b"step"],
            )),
        }
    }
}

impl Spelled for Keyword {
    ghost slot = { keyword };

    ghost spells = { λ v w. w ≡ keyword_text v };

    ghost fits = { Prim.search rules };

    fn read(word: &[u8]) -> Result<Keyword, usize> {
        match std::str::from_utf8(word).unwrap_or("") {
            "cluster" => Ok(Keyword::Cluster),
            _ => Err(astray(word, &[b"cluster"])),
        }
    }
}

impl Spelled for Policy {
    ghost slot = { policy };

    ghost spells = { λ v w. w ≡ policy_text v };

    ghost fits = { Prim.search rules };

    fn read(word: &[u8]) -> Result<Policy, usize> {
        match std::str::from_utf8(word).unwrap_or("") {
            "rendezvous" => Ok(Policy::Rendezvous),
            "jump" => Ok(Policy::Jump),
            _ => Err(astray(word, &[b"rendezvous", b"jump"])),
        }
    }
}

impl Spelled for Kind {
    ghost slot = { kind };

    ghost spells = { λ v w. w ≡ kind_text v };

    ghost fits = { Prim.search rules };

    fn read(word: &[u8]) -> Result<Kind, usize> {
        match std::str::from_utf8(word).unwrap_or("") {
            "table" => Ok(Kind::Table),
            "log" => Ok(Kind::Log),
            "mixed" => Ok(Kind::Mixed),
            _ => Err(astray(word, &[b"table", b"log", b"mixed"])),
        }
    }
}

impl Spelled for State {
    ghost slot = { state };

    ghost spells = { λ v w. w ≡ state_text v };

    ghost fits = { Prim.search rules };

    fn read(word: &[u8]) -> Result<State, usize> {
        match std::str::from_utf8(word).unwrap_or("") {
            "valid" => Ok(State::Valid),
            "saturated" => Ok(State::Saturated),
            "missing" => Ok(State::Missing),
            _ => Err(astray(word, &[b"valid", b"saturated", b"missing"])),
        }
    }
}

// What the lines of a script say. Each clause names its own form of the rest: a word over them would spare `place_of` alone.
ghost use Rattle.std.specs.Prelude.{[], ◌∷◌, MatchResult};
ghost use Rattle.grammar.specs.Faults.{place_of};
ghost use Rattle.grammar.specs.Slots.{number};
ghost use Rattle.grammar.specs.Lines.{Gives, Legal, GivesOpening, LegalOpening, Refuses};
ghost use Rattle.grammar.specs.Reading.{Triple, Completes, form, CompletesOpening, opening_form, RestFault};

use crate::reader::Reader;
use entry::calibration::Calibration;
use entry::reading::Reading;
use grammar::command::{Command, Verb};
use grammar::fault::LineFault;
use grammar::opening::{Keyword, Opening};
use words::Spelled;

// The last three words of a line: two numbers, and a word of some sort.
fn triple<T: Spelled + Drop>(r: &mut Reader) -> Result<(u64, u64, T), LineFault>
    ensures { MatchResult result (Triple T.spells r.old.line.text.now r.old.at) (λ f. RestFault (number ∷ number ∷ T.slot ∷ []) r.old.line.text.now r.old.line.number r.old.at (place_of f)) }
{
    Ok((r.next()?, r.next()?, r.last()?))
}

// What follows a verb: one case for each, as the grammar has them.
fn behind(r: &mut Reader, verb: Verb) -> Result<Command, LineFault>
    ensures { MatchResult result (Completes verb r.old.line.text.now r.old.at) (λ f. RestFault (form verb) r.old.line.text.now r.old.line.number r.old.at (place_of f)) }
{
    match verb {
        Verb::Cal => {
            let (key, firmware, factor) = triple(r)?;
            Ok(Command::Cal {
                key,
                entry: Calibration { firmware, factor },
            })
        }
        Verb::Read => {
            let (key, millilitres, state) = triple(r)?;
            Ok(Command::Read {
                key,
                entry: Reading { millilitres, state },
            })
        }
        Verb::Get => Ok(Command::Get { key: r.last()? }),
        Verb::Del => Ok(Command::Del { key: r.last()? }),
        Verb::Join => Ok(Command::Join { store: r.last()? }),
        Verb::Leave => Ok(Command::Leave { store: r.last()? }),
        Verb::Step => {
            r.end()?;
            Ok(Command::Step)
        }
    }
}

// The command that a line gives, or the place where it stops beginning a legal line.
pub fn read_command(line: &[u8], number: usize) -> Result<Command, LineFault>
    ensures { MatchResult result (Gives line.now) (Refuses Legal number line.now) }
{
    let mut r = Reader::new(line, number);
    let verb = r.first()?;
    behind(&mut r, verb)
}

// What follows the keyword of the first line.
fn cluster(r: &mut Reader) -> Result<Opening, LineFault>
    ensures { MatchResult result (CompletesOpening r.old.line.text.now r.old.at) (λ f. RestFault opening_form r.old.line.text.now r.old.line.number r.old.at (place_of f)) }
{
    let stores = r.next()?;
    let members = r.next()?;
    let copies = r.next()?;
    let policy = r.next()?;
    let kind = r.next()?;
    let cap = r.last()?;
    Ok(Opening {
        stores,
        members,
        copies,
        policy,
        kind,
        cap,
    })
}

// The opening that the first line gives, or the place where it stops beginning a legal one.
// To share these three lines with `read_command`, a trait would take two types, two relations and three laws.
pub fn read_opening(line: &[u8], number: usize) -> Result<Opening, LineFault>
    ensures { MatchResult result (GivesOpening line.now) (Refuses LegalOpening number line.now) }
{
    let mut r = Reader::new(line, number);
    let _keyword: Keyword = r.first()?;
    cluster(&mut r)
}

// The words of a line, with their places.
ghost use Rattle.std.specs.Prelude.{◌≡◌, ◌+◌, ◌^◌, ◌<◌, ◌≤◌, [], ◌∷◌, length, take, drop, MatchResult, ◌≢◌, slice_index};
ghost use Rattle.grammar.specs.Faults.{place_of, place_at};
ghost use Rattle.grammar.specs.Slots.{In, up_to, Spaceless, Reads, Strays};
ghost use Rattle.grammar.specs.Reading.{First, Next, Last, FirstFault, NextFault, RestFault};

use crate::cuts::cut;
use grammar::fault::{LineFault, Place, WordFault};
use words::Spelled;

// A word of a line, and the place of its first byte.
#[derive(Clone, Copy)]
pub struct Word<'a> {
    pub text: &'a [u8],
    pub place: Place,
}

impl<'a> Word<'a> {
    // The value that the word stands for.
    fn read<T: Spelled>(self) -> Result<T, WordFault>
        requires { self.place.column + length self.text.now < 2 ^ 64 }
        ensures { MatchResult result (λ v. T.Spelled.spells v self.entry.text.now) (λ f. (f.place.line ≡ self.entry.place.line) × Strays (In T.Spelled.slot) self.entry.text.now self.entry.place.column f.place.column) }
    {
        T::read(self.text).map_err(|far| WordFault {
            place: Place {
                column: self.place.column + far,
                ..self.place
            },
        })
    }
}

// A line, and its number, which callers have apart.
#[derive(Clone, Copy)]
pub struct Line<'a> {
    text: &'a [u8],
    number: usize,
}

// Hands out the words of a line, from left to right. The line is kept whole, since the place in it gives the column; what
// each call leaves of it is a clause of each.
#[derive(Drop)]
pub struct Reader<'a> {
    line: Line<'a>,
    at: usize,
    ghost inside: { at ≤ length line.text.now },
    ghost counted: { at < 2 ^ 63 },
}

impl<'a> Reader<'a> {
    // A reader of a line, and the line's number.
    pub fn new(line: &'a [u8], number: usize) -> Self
        ensures line_is_given { result.line.text.now ≡ line.now }
        ensures number_is_given { result.line.number ≡ number }
        ensures begins_at_its_start { result.at ≡ 0 }
    {
        Reader {
            line: Line { text: line, number },
            at: 0,
        }
    }

    // The place of the byte that comes next.
    fn place(&self) -> Place
        ensures { result ≡ place_at self.now.line.number self.now.at }
    {
        Place {
            line: self.line.number,
            column: self.at + 1,
        }
    }

    // The bytes up to a space or the end.
    fn word(&mut self) -> Word<'a>
        ensures line_stays { self.new.line ≡ self.old.line }
        ensures text { result.text.now ≡ up_to (drop self.old.at self.old.line.text.now) }
        ensures place { result.place ≡ place_at self.old.line.number self.old.at }
        ensures after { self.new.at ≡ self.old.at + length result.text.now }
    {
        let place = self.place();
        let (text, _) = cut(&self.line.text[self.at..], b' ');
        self.at += text.len();
        Word { text, place }
    }

    // The value of the line's first word.
    pub(crate) fn first<T: Spelled>(&mut self) -> Result<T, WordFault>
        requires { self.old.at ≡ 0 }
        ensures line_stays { self.new.line ≡ self.old.line }
        ensures reads_first { MatchResult result (First T.Spelled.spells self.old.line.text.now self.new.at) (λ f. FirstFault T.Spelled.slot self.old.line.text.now self.old.line.number f.place) }
    {
        self.word().read()
    }

    // A space, and the word behind it.
    fn field(&mut self) -> Result<Word<'a>, WordFault>
        ensures line_stays { self.new.line ≡ self.old.line }
        ensures cases { MatchResult result
            (λ w. Reads self.old.line.text.now self.old.at self.new.at w.text.now × Spaceless w.text.now × (w.place ≡ place_at self.old.line.number (self.old.at + 1)))
            (λ f. (f.place ≡ place_at self.old.line.number self.old.at) × (slice_index (drop self.old.at self.old.line.text.now) 0 ≢ 32)) }
    {
        if self.at < self.line.text.len() && self.line.text[self.at] == b' ' {
            self.at += 1;
            return Ok(self.word());
        }
        Err(WordFault {
            place: self.place(),
        })
    }

    // The value of the next word.
    pub(crate) fn next<T: Spelled>(&mut self) -> Result<T, WordFault>
        ensures line_stays { self.new.line ≡ self.old.line }
        ensures reads_next { MatchResult result (Next T.Spelled.spells self.old.line.text.now self.old.at self.new.at) (λ f. NextFault T.Spelled.slot self.old.line.text.now self.old.line.number self.old.at f.place) }
    {
        self.field()?.read()
    }

    // Nothing follows.
    pub(crate) fn end(&self) -> Result<(), LineFault>
        ensures { MatchResult result (λ _. drop self.now.at self.now.line.text.now ≡ []) (λ f. RestFault [] self.now.line.text.now self.now.line.number self.now.at (place_of f)) }
    {
        if self.at < self.line.text.len() {
            return Err(LineFault::Trailing(self.place()));
        }
        Ok(())
    }

    // The value of the next word, which is the last of the line.
    pub(crate) fn last<T: Spelled + Drop>(&mut self) -> Result<T, LineFault>
        ensures reads_last { MatchResult result (Last T.Spelled.spells self.old.line.text.now self.old.at self.new.at) (λ f. RestFault (T.Spelled.slot ∷ []) self.old.line.text.now self.old.line.number self.old.at (place_of f)) }
    {
        let value = self.next()?;
        self.end()?;
        Ok(value)
    }
}

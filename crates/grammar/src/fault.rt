// Why a line is refused, with number 1.

// A place in a script: both counted from 1.
#[derive(Clone, Copy)]
pub struct Place {
    pub line: usize,
    pub column: usize,
}

// A word that is wrong or missing: the first byte with which the line stops beginning a legal one, or one past the end
// of a line that is too short.
#[derive(Clone, Copy)]
pub struct WordFault {
    pub place: Place,
}

#[derive(Clone, Copy)]
pub enum LineFault {
    Word(WordFault),
    // Something follows the last word.
    Trailing(Place),
}

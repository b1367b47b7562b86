// How a change is written, how far it has come, and what a step moved.
ghost use Rattle.std.specs.Prelude.{Some as Shown};
ghost use Rattle.machine.specs.Statements.{cursor_of, move_of};
ghost use Rattle.machine.specs.Texts.{cursor_text, change_text, store_text, moved_text};

use crate::answer::Moved;
use crate::statement::{Change, Cursor};
use std::fmt;

impl fmt::Display for Cursor {
    ghost output = { λ c. Shown (cursor_text (cursor_of c)) };

    fn fmt<W: fmt::Write>(&self, f: &mut fmt::Formatter<W>) -> fmt::Result {
        match *self {
            Cursor::At(key) => write!(f, "{key}"),
            Cursor::Past => write!(f, "past"),
        }
    }
}

impl fmt::Display for Change {
    ghost output = { λ c. Shown (change_text (Shown (move_of c))) };

    fn fmt<W: fmt::Write>(&self, f: &mut fmt::Formatter<W>) -> fmt::Result {
        write!(f, "moving {} {}", self.store, self.cursor)
    }
}

// A store, or none: a type of its own, since how an Option is displayed is not ours to write.
#[derive(Clone, Copy)]
struct Dashed(Option<usize>);

impl fmt::Display for Dashed {
    ghost output = { λ d. Shown (store_text d.0) };

    fn fmt<W: fmt::Write>(&self, f: &mut fmt::Formatter<W>) -> fmt::Result {
        match self.0 {
            None => write!(f, "-"),
            Some(store) => write!(f, "{store}"),
        }
    }
}

impl fmt::Display for Moved {
    ghost output = { λ m. Shown (moved_text m) };

    fn fmt<W: fmt::Write>(&self, f: &mut fmt::Formatter<W>) -> fmt::Result {
        let gained = Dashed(self.gained);
        let lost = Dashed(self.lost);
        write!(f, "{} {gained} {lost}", self.key)
    }
}

// The members of a roster, one after the other.
ghost use Rattle.std.specs.Prelude.{◌≡◌, ℕ, List};
ghost use Rattle.std.specs.Iterator.{YieldsFirst, item_count};
ghost use Rattle.placement.specs.Packing.{unpack};

use std::marker::Model;

// Store numbers still to come, packed as in a roster: the next one is lowest in the word. Clauses see their list.
#[derive(Drop)]
pub struct Members {
    pub(crate) word: u64,
    pub(crate) left: usize,
}

impl Model for Members {
    ghost Value = { List ℕ };

    ghost view = { λ m. unpack m.word m.left };
}

impl Iterator for Members {
    type Item = usize;

    ghost next_gives = { YieldsFirst (λ m. m) };

    ghost remaining = { item_count (λ m. m) };

    fn next(&mut self) -> Option<usize> {
        if self.left == 0 {
            return None;
        }
        let store = (self.word % 16) as usize;
        self.word /= 16;
        self.left -= 1;
        Some(store)
    }
}

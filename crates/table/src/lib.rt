// A store over a lent slice of cells: open addressing with linear probing.
//
// The walk for a key starts at the key modulo the number of cells, goes up by one, wrapping, and
// stops at the key, at an empty cell or after all cells. A new pair takes the first cell of the walk
// that is not live, a replaced one stays in its cell, and a removed one leaves its cell gone.
#![tactic(auto)]

ghost use Rattle.std.specs.Prelude.{◌≡◌, true, false, [], length};
ghost use Rattle.cells.specs.Walk.{walk};
ghost use Rattle.cells.specs.Held.{held, Standing, put_cells, remove_cells, cleared, allowed, checked};
ghost use Rattle.table.specs.Laws.{table_lawful};

use cells::{Cell, Walked};
use store::fault::StoreFault;
use store::value::Value;
use store::{Put, Store};

// The most pairs that any store holds.
const MOST: usize = 4096;

// The lent cells, and how many pairs the table takes in.
#[derive(Drop)]
pub struct Table<'a> {
    cells: &'a mut [Cell],
    cap: usize,
}

impl<'a> Table<'a> {
    // Whether a table of this cap may be made of these cells: a cap of 1 to the number of cells,
    // and at most 4,096.
    pub fn check(cells: &[Cell], cap: usize) -> Result<(), StoreFault>
        ensures { result ≡ checked (length cells.now) cap }
    {
        if cap >= 1 && cap <= cells.len() && cap <= MOST {
            Ok(())
        } else {
            Err(StoreFault::BeyondLimit)
        }
    }

    // A table of these cells, all of which become empty. It stands exactly where the check accepts.
    pub fn make(cells: &'a mut [Cell], cap: usize) -> Self
        ensures cells_are_cleared { result.cells.now ≡ cleared (length cells.old) }
        ensures cap_is_chosen { result.cap ≡ cap }
        ensures holds_nothing { held result.cells.now ≡ [] }
        ensures stands_where_allowed { allowed (length cells.old) cap ≡ true → Standing result.cells.now result.cap }
        ensures falls_where_refused { allowed (length cells.old) cap ≡ false → Standing result.cells.now result.cap → ⊥ }
        ensures same_cells { result.cells.ghost_name ≡ cells.entry.ghost_name }
    {
        cells.fill(Cell::Empty);
        Table { cells, cap }
    }

    // What the walk for `key` meets.
    fn walk_for(&self, key: u64) -> Walked
        ensures { result ≡ walk self.now.cells.now key }
    {
        let n = self.cells.len();
        let mut free: Option<usize> = None;
        if n == 0 {
            return Walked { found: None, free };
        }
        let mut place = (key % n as u64) as usize;
        // stepped by hand: a chain of two ranges takes twice as long a turn
        for turn in 0..n {
            match self.cells[place] {
                Cell::Empty => return Walked {
                    found: None,
                    free: free.or(Some(place)),
                },
                Cell::Live { key: held, .. } if held == key => return Walked {
                    found: Some(place),
                    free,
                },
                Cell::Live { .. } => {}
                Cell::Gone => free = free.or(Some(place)),
            }
            place = if place + 1 == n { 0 } else { place + 1 };
        }
        Walked { found: None, free }
    }
}

// The cells, all of them, after a put and a removal: `put_cells` and `remove_cells` of those before.
impl<'a> Store for Table<'a> {
    ghost pairs = { λ t. held t.cells.now };

    ghost cap = { λ t. t.cap };

    ghost standing = { λ t. Standing t.cells.now t.cap };

    ghost lawful = { λ t h. table_lawful t.cells.now t.cap h };

    ghost placed = { λ t k v u. (u.cells.now ≡ put_cells t.cells.now t.cap k v) × (u.cells.ghost_name ≡ t.cells.ghost_name) };

    ghost struck = { λ t k u. (u.cells.now ≡ remove_cells t.cells.now k) × (u.cells.ghost_name ≡ t.cells.ghost_name) };

    fn get(&self, key: u64) -> Option<Value> {
        let place = self.walk_for(key).found?;
        let cells = &*self.cells;
        cells[place].value()
    }

    fn put(&mut self, key: u64, value: Value) -> Result<Put, StoreFault> {
        let walked = self.walk_for(key);
        if walked.found.is_none() && self.count() >= self.cap {
            return Err(StoreFault::Full);
        }
        let cells = &mut *self.cells;
        let Some(place) = walked.found.or(walked.free) else {
            unreachable()
        };
        cells[place] = Cell::Live { key, value };
        Ok(walked.found.map_or(Put::New, |_| Put::Replaced))
    }

    fn remove(&mut self, key: u64) -> bool {
        let Some(place) = self.walk_for(key).found else {
            return false;
        };
        let cells = &mut *self.cells;
        cells[place] = Cell::Gone;
        true
    }

    fn next(&self, key: u64) -> Option<u64> {
        self.cells
            .iter()
            .fold(None, |best: Option<u64>, c| match c.key() {
                Some(held) if held >= key => Some(best.map_or(held, |b| b.min(held))),
                _ => best,
            })
    }

    fn count(&self) -> usize {
        self.cells
            .iter()
            .map(|c| usize::from(c.key().is_some()))
            .sum()
    }

    fn cap(&self) -> usize {
        self.cap
    }
}

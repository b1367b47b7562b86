// A mixed store over two stores, one of them marked: all is the marked one's, and the other is never
// touched. It lets one type stand for either of two kinds of store.
ghost use Rattle.std.specs.Prelude.{◌≡◌};
ghost use Rattle.layers.specs.Marks.{of_marked, OfMarked, mixed_lawful};

use mark::Marked;
use store::fault::StoreFault;
use store::value::Value;
use store::{Put, Store};

pub mod mark;

#[derive(Drop)]
pub struct Mixed<A, B> {
    first: A,
    second: B,
    marked: Marked,
}

impl<A: Store, B: Store> Mixed<A, B> {
    // A mixed of two stores. Nothing is refused, so there is no check: it stands exactly where the
    // marked store does.
    pub fn make(first: A, second: B, marked: Marked) -> Self
        ensures first_is_given { result.first ≡ first }
        ensures second_is_given { result.second ≡ second }
        ensures mark_is_given { result.marked ≡ marked }
    {
        Mixed {
            first,
            second,
            marked,
        }
    }
}

// Each call asks the mark anew: the two stores differ in type, so a helper would take a closure for each.
impl<A: Store, B: Store> Store for Mixed<A, B> {
    ghost pairs = { λ m. of_marked m.marked (A.Store.pairs m.first) (B.Store.pairs m.second) };

    ghost cap = { λ m. of_marked m.marked (A.Store.cap m.first) (B.Store.cap m.second) };

    ghost standing = { λ m. OfMarked m.marked (A.Store.standing m.first) (B.Store.standing m.second) };

    ghost lawful = { λ m h. mixed_lawful m.marked (A.Store.pairs m.first) (A.Store.cap m.first) (A.Store.standing m.first) (A.Store.lawful m.first) (B.Store.pairs m.second) (B.Store.cap m.second) (B.Store.standing m.second) (B.Store.lawful m.second) h };

    ghost placed = { λ m k v n. (n.marked ≡ m.marked) × OfMarked m.marked (A.Store.placed m.first k v n.first × (n.second ≡ m.second)) (B.Store.placed m.second k v n.second × (n.first ≡ m.first)) };

    ghost struck = { λ m k n. (n.marked ≡ m.marked) × OfMarked m.marked (A.Store.struck m.first k n.first × (n.second ≡ m.second)) (B.Store.struck m.second k n.second × (n.first ≡ m.first)) };

    fn get(&self, key: u64) -> Option<Value> {
        match self.marked {
            Marked::First => self.first.get(key),
            Marked::Second => self.second.get(key),
        }
    }

    fn put(&mut self, key: u64, value: Value) -> Result<Put, StoreFault> {
        match self.marked {
            Marked::First => self.first.put(key, value),
            Marked::Second => self.second.put(key, value),
        }
    }

    fn remove(&mut self, key: u64) -> bool {
        match self.marked {
            Marked::First => self.first.remove(key),
            Marked::Second => self.second.remove(key),
        }
    }

    fn next(&self, key: u64) -> Option<u64> {
        match self.marked {
            Marked::First => self.first.next(key),
            Marked::Second => self.second.next(key),
        }
    }

    fn count(&self) -> usize {
        match self.marked {
            Marked::First => self.first.count(),
            Marked::Second => self.second.count(),
        }
    }

    fn cap(&self) -> usize {
        match self.marked {
            Marked::First => self.first.cap(),
            Marked::Second => self.second.cap(),
        }
    }
}

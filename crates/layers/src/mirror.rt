// A mirror over two stores: both halves hold its pairs.
ghost use Rattle.std.specs.Prelude.{◌≡◌, min, true, false, MatchBool};
ghost use Rattle.store.specs.Outcomes.{refuses};
ghost use Rattle.layers.specs.Laws.{Mirrored, mirror_lawful, both_empty, halves_checked};

use super::full_for;
use store::fault::StoreFault;
use store::value::Value;
use store::{Put, Store};

#[derive(Drop)]
pub struct Mirror<A, B> {
    left: A,
    right: B,
    // Whether the check accepted the halves: making is never refused, and a mirror of halves that held pairs must not stand.
    opened: bool,
}

impl<A: Store, B: Store> Mirror<A, B> {
    // Whether both halves are empty, as a mirror's must be.
    pub fn check(left: &A, right: &B) -> Result<(), StoreFault>
        requires left_standing { A.Store.standing left.now }
        requires right_standing { B.Store.standing right.now }
        ensures { result ≡ halves_checked (A.Store.pairs left.now) (B.Store.pairs right.now) }
    {
        if left.count() == 0 && right.count() == 0 {
            Ok(())
        } else {
            Err(StoreFault::HoldsPair)
        }
    }

    // A mirror of these halves. It stands exactly where the check accepts, and then it has no pairs.
    pub fn make(left: A, right: B) -> Self
        requires left_standing { A.Store.standing left }
        requires right_standing { B.Store.standing right }
        ensures left_is_given { result.left ≡ left }
        ensures right_is_given { result.right ≡ right }
        ensures opened_where_empty { result.opened ≡ both_empty (A.Store.pairs left) (B.Store.pairs right) }
        ensures stands_where_empty { both_empty (A.Store.pairs left) (B.Store.pairs right) ≡ true → Mirrored (A.Store.standing result.left) (B.Store.standing result.right) (A.Store.pairs result.left) (B.Store.pairs result.right) result.opened }
        ensures falls_where_held { both_empty (A.Store.pairs left) (B.Store.pairs right) ≡ false → Mirrored (A.Store.standing result.left) (B.Store.standing result.right) (A.Store.pairs result.left) (B.Store.pairs result.right) result.opened → ⊥ }
    {
        let opened = Self::check(&left, &right).is_ok();
        Mirror {
            left,
            right,
            opened,
        }
    }
}

// A refused put leaves both halves as they are; any other put or removal is done to both.
impl<A: Store, B: Store> Store for Mirror<A, B> {
    ghost pairs = { λ m. A.Store.pairs m.left };

    ghost cap = { λ m. min (A.Store.cap m.left) (B.Store.cap m.right) };

    ghost standing = { λ m. Mirrored (A.Store.standing m.left) (B.Store.standing m.right) (A.Store.pairs m.left) (B.Store.pairs m.right) m.opened };

    ghost lawful = { λ m h. mirror_lawful (A.Store.pairs m.left) (A.Store.cap m.left) (B.Store.cap m.right) (A.Store.lawful m.left h.left_stands) };

    ghost placed = { λ m k v n. (n.opened ≡ m.opened) × MatchBool (refuses (A.Store.pairs m.left) (min (A.Store.cap m.left) (B.Store.cap m.right)) k) ((n.left ≡ m.left) × (n.right ≡ m.right)) (A.Store.placed m.left k v n.left × B.Store.placed m.right k v n.right) };

    ghost struck = { λ m k n. (n.opened ≡ m.opened) × (A.Store.struck m.left k n.left × B.Store.struck m.right k n.right) };

    fn get(&self, key: u64) -> Option<Value> {
        self.left.get(key)
    }

    fn put(&mut self, key: u64, value: Value) -> Result<Put, StoreFault> {
        if full_for(&self.left, self.cap(), key) {
            return Err(StoreFault::Full);
        }
        let _ = self.right.put(key, value);
        self.left.put(key, value)
    }

    fn remove(&mut self, key: u64) -> bool {
        let _ = self.right.remove(key);
        self.left.remove(key)
    }

    fn next(&self, key: u64) -> Option<u64> {
        self.left.next(key)
    }

    fn count(&self) -> usize {
        self.left.count()
    }

    fn cap(&self) -> usize {
        self.left.cap().min(self.right.cap())
    }
}

// A quota over one store: the same pairs, and a cap of its own where that is the smaller one.
ghost use Rattle.std.specs.Prelude.{◌≡◌, min, MatchBool};
ghost use Rattle.store.specs.Outcomes.{refuses};
ghost use Rattle.layers.specs.Laws.{quota_lawful};

use super::full_for;
use store::fault::StoreFault;
use store::value::Value;
use store::{Put, Store};

#[derive(Drop)]
pub struct Quota<S> {
    below: S,
    quota: usize,
}

impl<S: Store> Quota<S> {
    // A quota of any number over any store, which may already hold more pairs. Nothing is refused,
    // so there is no check: the quota stands exactly where the store below does.
    pub fn make(below: S, quota: usize) -> Self
        ensures store_is_given { result.below ≡ below }
        ensures quota_is_given { result.quota ≡ quota }
    {
        Quota { below, quota }
    }
}

// A refused put leaves the store below as it is; any other call is the same call below.
impl<S: Store> Store for Quota<S> {
    ghost pairs = { λ q. S.Store.pairs q.below };

    ghost cap = { λ q. min q.quota (S.Store.cap q.below) };

    ghost standing = { λ q. S.Store.standing q.below };

    ghost lawful = { λ q h. quota_lawful (S.Store.pairs q.below) q.quota (S.Store.cap q.below) (S.Store.lawful q.below h) };

    ghost placed = { λ q k v p. (p.quota ≡ q.quota) × MatchBool (refuses (S.Store.pairs q.below) q.quota k) (p.below ≡ q.below) (S.Store.placed q.below k v p.below) };

    ghost struck = { λ q k p. (p.quota ≡ q.quota) × S.Store.struck q.below k p.below };

    fn get(&self, key: u64) -> Option<Value> {
        self.below.get(key)
    }

    fn put(&mut self, key: u64, value: Value) -> Result<Put, StoreFault> {
        if full_for(&self.below, self.quota, key) {
            return Err(StoreFault::Full);
        }
        self.below.put(key, value)
    }

    fn remove(&mut self, key: u64) -> bool {
        self.below.remove(key)
    }

    fn next(&self, key: u64) -> Option<u64> {
        self.below.next(key)
    }

    fn count(&self) -> usize {
        self.below.count()
    }

    fn cap(&self) -> usize {
        self.quota.min(self.below.cap())
    }
}

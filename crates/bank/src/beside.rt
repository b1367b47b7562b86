ghost use Rattle.std.specs.Prelude.{◌≡◌, ◌-◌, ◌∷◌, length, MatchBool, ◌==◌};
ghost use Rattle.bank.specs.Rows.{StandsBeside, row_beside};

use super::Bank;
use store::fault::StoreFault;
use store::value::Value;
use store::{Put, Store};

// One store, with number 0, beside a smaller bank, whose numbers go up by one.
#[derive(Drop)]
pub struct Beside<S, B> {
    pub store: S,
    pub rest: B,
}

// Each call tests `s` anew: store and bank differ in type, so a helper would take a closure for each.
impl<S: Store, B: Bank> Bank for Beside<S, B> {
    ghost stores = { λ b. record { pairs = S.Store.pairs b.store; cap = S.Store.cap b.store } ∷ B.Bank.stores b.rest };

    ghost standing = { λ b. StandsBeside (S.Store.standing b.store) (B.Bank.standing b.rest) (length (B.Bank.stores b.rest)) };

    ghost lawful = { λ b h. row_beside (record { pairs = S.Store.pairs b.store; cap = S.Store.cap b.store }) (B.Bank.stores b.rest) (S.Store.lawful b.store h.store_stands) (B.Bank.lawful b.rest h.rest_stands) h.numbered };

    ghost beyond = { λ b. B.Bank.beyond b.rest };

    ghost placed = { λ b s k v d. MatchBool (s == 0) (S.Store.placed b.store k v d.store × (d.rest ≡ b.rest)) (B.Bank.placed b.rest (s - 1) k v d.rest × (d.store ≡ b.store)) };

    ghost struck = { λ b s k d. MatchBool (s == 0) (S.Store.struck b.store k d.store × (d.rest ≡ b.rest)) (B.Bank.struck b.rest (s - 1) k d.rest × (d.store ≡ b.store)) };

    fn len(&self) -> usize {
        self.rest.len() + 1
    }

    fn get(&self, s: usize, key: u64) -> Option<Value> {
        if s == 0 {
            self.store.get(key)
        } else {
            self.rest.get(s - 1, key)
        }
    }

    fn put(&mut self, s: usize, key: u64, value: Value) -> Result<Put, StoreFault> {
        if s == 0 {
            self.store.put(key, value)
        } else {
            self.rest.put(s - 1, key, value)
        }
    }

    fn remove(&mut self, s: usize, key: u64) -> bool {
        if s == 0 {
            self.store.remove(key)
        } else {
            self.rest.remove(s - 1, key)
        }
    }

    fn next(&self, s: usize, key: u64) -> Option<u64> {
        if s == 0 {
            self.store.next(key)
        } else {
            self.rest.next(s - 1, key)
        }
    }

    fn count(&self, s: usize) -> usize {
        if s == 0 {
            self.store.count()
        } else {
            self.rest.count(s - 1)
        }
    }

    fn cap(&self, s: usize) -> usize {
        if s == 0 {
            self.store.cap()
        } else {
            self.rest.cap(s - 1)
        }
    }
}

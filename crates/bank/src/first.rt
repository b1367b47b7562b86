ghost use Rattle.std.specs.Prelude.{◌≡◌, ◌++◌, take, drop, MatchBool, nat_lt};
ghost use Rattle.bank.specs.Rows.{row_first};

use super::Bank;
use store::Put;
use store::fault::StoreFault;
use store::value::Value;

// The first `few` stores of a longer bank, or all of a shorter one. The others are never touched.
// `few` stands beside the bank: a bank is no slice, and the stores behind the first few come back as they were.
#[derive(Drop)]
pub struct First<B> {
    pub bank: B,
    pub few: usize,
}

// Each call tests `s` anew: a helper that took the call as a closure would be longer than the test.
impl<B: Bank> Bank for First<B> {
    ghost stores = { λ b. take b.few (B.Bank.stores b.bank) };

    ghost standing = { λ b. B.Bank.standing b.bank };

    ghost lawful = { λ b h. row_first b.few (B.Bank.stores b.bank) (B.Bank.lawful b.bank h) };

    ghost beyond = { λ b. drop b.few (B.Bank.stores b.bank) ++ B.Bank.beyond b.bank };

    ghost placed = { λ b s k v d. (d.few ≡ b.few) × MatchBool (nat_lt s b.few) (B.Bank.placed b.bank s k v d.bank) (d.bank ≡ b.bank) };

    ghost struck = { λ b s k d. (d.few ≡ b.few) × MatchBool (nat_lt s b.few) (B.Bank.struck b.bank s k d.bank) (d.bank ≡ b.bank) };

    fn len(&self) -> usize {
        self.few.min(self.bank.len())
    }

    fn get(&self, s: usize, key: u64) -> Option<Value> {
        if s < self.few {
            self.bank.get(s, key)
        } else {
            None
        }
    }

    fn put(&mut self, s: usize, key: u64, value: Value) -> Result<Put, StoreFault> {
        if s < self.few {
            self.bank.put(s, key, value)
        } else {
            Err(StoreFault::Full)
        }
    }

    fn remove(&mut self, s: usize, key: u64) -> bool {
        if s < self.few {
            self.bank.remove(s, key)
        } else {
            false
        }
    }

    fn next(&self, s: usize, key: u64) -> Option<u64> {
        if s < self.few {
            self.bank.next(s, key)
        } else {
            None
        }
    }

    fn count(&self, s: usize) -> usize {
        if s < self.few { self.bank.count(s) } else { 0 }
    }

    fn cap(&self, s: usize) -> usize {
        if s < self.few { self.bank.cap(s) } else { 0 }
    }
}

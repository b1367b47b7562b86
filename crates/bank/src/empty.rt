ghost use Rattle.std.specs.Prelude.{◌≡◌, []};
ghost use Rattle.bank.specs.Rows.{row_none};

use super::Bank;
use store::Put;
use store::fault::StoreFault;
use store::value::Value;

// The bank of no stores.
#[derive(Drop)]
pub struct Empty {}

impl Bank for Empty {
    ghost stores = { λ _. [] };

    ghost standing = { λ _. Unit {0} };

    ghost lawful = { λ _ _. row_none };

    ghost beyond = { λ _. [] };

    ghost placed = { λ b s k v d. d ≡ b };

    ghost struck = { λ b s k d. d ≡ b };

    fn len(&self) -> usize {
        0
    }

    fn get(&self, _s: usize, _key: u64) -> Option<Value> {
        None
    }

    fn put(&mut self, _s: usize, _key: u64, _value: Value) -> Result<Put, StoreFault> {
        Err(StoreFault::Full)
    }

    fn remove(&mut self, _s: usize, _key: u64) -> bool {
        false
    }

    fn next(&self, _s: usize, _key: u64) -> Option<u64> {
        None
    }

    fn count(&self, _s: usize) -> usize {
        0
    }

    fn cap(&self, _s: usize) -> usize {
        0
    }
}

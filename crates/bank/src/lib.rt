// A bank: stores numbered from 0 by their place. It is empty, one store beside a smaller bank, or the
// first stores of a longer one; the stores may differ in type. A number past the last answers as an
// empty store of cap 0 would.
#![tactic(auto)]

ghost use Rattle.std.specs.Prelude.{◌≡◌, ℕ, List, length};
ghost use Rattle.pairs.specs.Pairs.{find, has, next_key};
ghost use Rattle.store.specs.Meaning.{Meaning};
ghost use Rattle.store.specs.Outcomes.{put_answer};
ghost use Rattle.store.specs.Stores.{nth, put_at, erase_at, LawfulRow};
ghost use Rattle.store.specs.declared.value.Value.{Value};

pub mod beside;
pub mod empty;
pub mod first;

use store::Put;
use store::fault::StoreFault;
use store::value::Value;

// The six calls of a store, with the store's number in front, and the number of stores. A call with
// number `s` changes the meaning of store `s` alone.
// The standing is a call's one premise, so each contract states it; `s`, `key` and `value` are what a call is about.
pub trait Bank {
    // What each store means, by number.
    ghost stores: { Self → List Meaning };

    // Every store is standing.
    ghost standing: { Self → Type 0 };

    ghost lawful: { (b : Self) → standing b → LawfulRow (stores b) };

    // The stores that are there and have no number, since they lie past the bank's end.
    ghost beyond: { Self → List Meaning };

    // What a put, and a removal, make of the stores themselves, as the stores tell it.
    ghost placed: { Self → ℕ → ℕ → Value → Self → Type 0 };

    ghost struck: { Self → ℕ → ℕ → Self → Type 0 };

    // The number of stores.
    fn len(&self) -> usize
        requires { standing self.now }
        ensures { result ≡ length (stores self.now) };

    fn get(&self, s: usize, key: u64) -> Option<Value>
        requires { standing self.now }
        ensures { result ≡ find (nth (stores self.now) s).pairs key };

    fn put(&mut self, s: usize, key: u64, value: Value) -> Result<Put, StoreFault>
        requires { standing self.old }
        ensures stands { standing self.new }
        ensures answers_put { result ≡ put_answer (nth (stores self.old) s).pairs (nth (stores self.old) s).cap key }
        ensures stores_follow_put { stores self.new ≡ put_at (stores self.old) s key value }
        ensures beyond_untouched { beyond self.new ≡ beyond self.old }
        ensures placed { placed self.old s key value self.new };

    fn remove(&mut self, s: usize, key: u64) -> bool
        requires { standing self.old }
        ensures stands { standing self.new }
        ensures answers_remove { result ≡ has (nth (stores self.old) s).pairs key }
        ensures stores_follow_remove { stores self.new ≡ erase_at (stores self.old) s key }
        ensures beyond_untouched { beyond self.new ≡ beyond self.old }
        ensures struck { struck self.old s key self.new };

    fn next(&self, s: usize, key: u64) -> Option<u64>
        requires { standing self.now }
        ensures { result ≡ next_key (nth (stores self.now) s).pairs key };

    fn count(&self, s: usize) -> usize
        requires { standing self.now }
        ensures { result ≡ length (nth (stores self.now) s).pairs };

    fn cap(&self, s: usize) -> usize
        requires { standing self.now }
        ensures { result ≡ (nth (stores self.now) s).cap };
}

// What a store is: a value, the trait `Store` with its six calls, and the faults of stores.
//
// A store's meaning is a finite map from keys to values, called its pairs, and a number, its cap.
// Every implementation (table, layers) states its own pairs, cap and standing as ghost members,
// and proves the same contracts; whoever uses a store is proved against those alone.
#![tactic(auto)]

ghost use Rattle.std.specs.Prelude.{◌≡◌, ℕ, List, length};
ghost use Rattle.pairs.specs.Pairs.{Pair, find, has, erase, next_key};
ghost use Rattle.store.specs.Laws.{CallLaws, RowLaws};
ghost use Rattle.store.specs.Meaning.{Lawful};
ghost use Rattle.store.specs.Outcomes.{put_answer, put_pairs, fault_number};
ghost use Rattle.store.specs.declared.value.Value.{Value};

pub mod fault;
pub mod value;

use fault::StoreFault;
use value::Value;

// What an accepted put did: the key is new, or its value was replaced.
#[derive(Clone, Copy, PartialEq, Eq, Debug)]
pub enum Put {
    New,
    Replaced,
}

impl StoreFault {
    // The number by which reports name this refusal.
    pub fn number(&self) -> u8
        ensures { result ≡ fault_number self.now }
    {
        *self as u8
    }
}

// A finite map of limited size. Each call presumes that the store is standing, which means: made by
// its opening where the opening's check accepts, and changed since by these calls alone. Each call
// keeps it standing, and none changes the cap.
// The standing is a call's one premise, so each contract states it; `key` and `value` are what a call is about.
pub trait Store {
    // The pairs held, by ascending key.
    ghost pairs: { Self → List (Pair Value) };

    // How many pairs the store takes in.
    ghost cap: { Self → ℕ };

    ghost standing: { Self → Type 0 };

    // A standing store's pairs ascend, its keys and words fit 64 bits, and both limits hold.
    ghost lawful: { (s : Self) → standing s → Lawful (pairs s) (cap s) };

    // What a put, and a removal, make of the store itself: the cells or bytes it is made of. An
    // implementation says it exactly, so that a caller of the trait's call knows it too.
    ghost placed: { Self → ℕ → Value → Self → Type 0 };

    ghost struck: { Self → ℕ → Self → Type 0 };

    // The value at `key`, or none.
    fn get(&self, key: u64) -> Option<Value>
        requires { standing self.now }
        ensures { result ≡ find (pairs self.now) key };

    // Maps `key` to `value`. Refused exactly when the key is absent and the number of pairs is at
    // least the cap; nothing changes then.
    fn put(&mut self, key: u64, value: Value) -> Result<Put, StoreFault>
        requires { standing self.old }
        ensures stands { standing self.new }
        ensures answers_put { result ≡ put_answer (pairs self.old) (cap self.old) key }
        ensures pairs_follow_put { pairs self.new ≡ put_pairs (pairs self.old) (cap self.old) key value }
        ensures cap_stays { cap self.new ≡ cap self.old }
        ensures placed { placed self.old key value self.new };

    // Takes `key` out, and tells whether it was there. Never refused.
    fn remove(&mut self, key: u64) -> bool
        requires { standing self.old }
        ensures stands { standing self.new }
        ensures answers_remove { result ≡ has (pairs self.old) key }
        ensures pairs_follow_remove { pairs self.new ≡ erase (pairs self.old) key }
        ensures cap_stays { cap self.new ≡ cap self.old }
        ensures struck { struck self.old key self.new };

    // The smallest key held that is not below `key`, or none.
    fn next(&self, key: u64) -> Option<u64>
        requires { standing self.now }
        ensures { result ≡ next_key (pairs self.now) key };

    // The number of pairs.
    fn count(&self) -> usize
        requires { standing self.now }
        ensures { result ≡ length (pairs self.now) };

    // The cap.
    fn cap(&self) -> usize
        requires { standing self.now }
        ensures { result ≡ cap self.now };
}

// What the calls make of lawful pairs is lawful.
pub fn calls_keep_the_laws()
    ensures { CallLaws }
{
    // The statement is the contract: there is nothing to do.
}

// A call with the number of one store of a row changes that store alone.
pub fn rows_change_one_store()
    ensures { RowLaws }
{
    // The statement is the contract: there is nothing to do.
}

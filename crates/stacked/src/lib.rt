// Layers upon layers: a mirror of a quota over a table and of a mixed of two tables, opened and used.
#![tactic(auto)]

ghost use Rattle.std.specs.Prelude.{◌≡◌, min, [], Ok};
ghost use Rattle.pairs.specs.Pairs.{erase};
ghost use Rattle.store.specs.Outcomes.{put_pairs};
ghost use Rattle.stacked.specs.Trials.{trial_of};

use cells::Cell;
use layers::mirror::Mirror;
use layers::mixed::Mixed;
use layers::mixed::mark::Marked;
use layers::quota::Quota;
use store::Store;
use store::fault::StoreFault;
use store::value::Value;
use table::Table;
use trial::Trial;

pub mod trial;

// Asks for the cap, puts a pair, reads it, takes it out and looks again.
pub fn try_out<S: Store>(store: &mut S, key: u64, value: Value) -> Trial
    requires { S.Store.standing store.old }
    ensures answers { result ≡ trial_of (S.Store.pairs store.old) (S.Store.cap store.old) key value }
    ensures stands { S.Store.standing store.new }
    ensures key_is_out { S.Store.pairs store.new ≡ erase (put_pairs (S.Store.pairs store.old) (S.Store.cap store.old) key value) key }
    ensures cap_stays { S.Store.cap store.new ≡ S.Store.cap store.old }
{
    let cap = store.cap();
    let put = store.put(key, value);
    let got = store.get(key);
    let removed = store.remove(key);
    let after = store.get(key);
    Trial {
        cap,
        put,
        got,
        removed,
        after,
    }
}

// A mirror of a quota over a table of cap 3, and of a mixed of two tables whose marked one has cap 2,
// opened and tried out: it answers as an empty store whose cap is the least of the three.
pub fn try_stack(quota: usize, key: u64, value: Value) -> Result<Trial, StoreFault>
    ensures { result ≡ Ok (trial_of [] (min (min quota 3) 2) key value) }
{
    let mut a = [Cell::Empty; 4];
    let mut b = [Cell::Empty; 2];
    let mut c = [Cell::Empty; 1];
    Table::check(&a, 3)?;
    Table::check(&b, 2)?;
    Table::check(&c, 1)?;
    let left = Quota::make(Table::make(&mut a, 3), quota);
    let right = Mixed::make(
        Table::make(&mut b, 2),
        Table::make(&mut c, 1),
        Marked::First,
    );
    Mirror::check(&left, &right)?;
    let mut mirror = Mirror::make(left, right);
    Ok(try_out(&mut mirror, key, value))
}

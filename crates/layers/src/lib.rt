// Layers: each is again a store, over any store or two, held by value. Layers stack in any order and
// depth, since a layer asks of what is below it only that it is a store.
#![tactic(auto)]

ghost use Rattle.std.specs.Prelude.{◌≡◌};
ghost use Rattle.store.specs.Outcomes.{refuses};

pub mod mirror;
pub mod mixed;
pub mod quota;

use store::Store;

// Whether a store with the cap `limit` would refuse `key`, had it the pairs of this one.
fn full_for<S: Store>(store: &S, limit: usize, key: u64) -> bool
    requires { S.Store.standing store.now }
    ensures { result ≡ refuses (S.Store.pairs store.now) limit key }
{
    store.get(key).is_none() && store.count() >= limit
}

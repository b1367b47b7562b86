// Finite maps from keys to a payload, as lists of pairs in strictly ascending key order.
// The crate is theory: `specs/Pairs.antt` defines the maps and their operations, and
// `proofs/Maps.antt` has the lemmas that the crates above cite.
#![tactic(auto)]

ghost use Rattle.pairs.specs.Laws.{LookUps, Orders, Sizes, Filters, Nexts};

// The laws of maps, for every payload `V`.
pub fn maps_obey_their_laws<V>()
    ensures look_ups { LookUps V }
    ensures orders { Orders V }
    ensures sizes { Sizes V }
    ensures filters { Filters V }
    ensures nexts { Nexts V }
{
    // The statement is the contract: there is nothing to do.
}

// A service without a change, and one in a change: two types, so that a call that needs the other does not compile.
ghost use Rattle.std.specs.Prelude.{◌≡◌};

use machine::statement::Change;
use placement::roster::Roster;

// No change is open. May be dropped, since nothing is owed.
#[derive(Drop)]
pub struct Settled<P> {
    pub(crate) placement: P,
    pub(crate) copies: usize,
    pub(crate) roster: Roster,
    pub(crate) copied: u64,
}

// A service with a change open over it. Cannot be dropped: it is stepped to its end, or closed.
pub struct Moving<P> {
    pub(crate) settled: Settled<P>,
    pub(crate) change: Change,
    ghost alike: { change.target.stores ≡ settled.roster.stores },
}

// Placements: for a key, a roster and a number of copies, an ordered list of stores.
ghost use Rattle.std.specs.Prelude.{◌≡◌, ◌≤◌};
ghost use Rattle.placement.specs.Laws.{Rule, Lawful, nearest};
ghost use Rattle.placement.specs.Rosters.{members};

use crate::roster::Roster;

// A placement is a lawful rule: it lists the stores of a key and says which members may leave, and both depend on
// the question alone. The list of a key is again a roster, of at most four stores.
pub trait Placement: Sized {
    ghost rule: { Self → Rule };

    // The greatest number of copies, 1 to 4.
    fn greatest(&self) -> usize
        ensures { result ≡ (rule self.now).greatest };

    // The stores of a key, in order. A number of copies outside 1 to the greatest is taken as the nearer end.
    fn list(&self, key: u64, roster: &Roster, copies: usize) -> Roster
        ensures follows_rule { members result ≡ (rule self.now).list key (members roster.now) copies }
        ensures stores_kept { result.stores ≡ roster.now.stores };

    // Whether a member may leave.
    fn may_leave(&self, roster: &Roster, store: usize) -> bool
        ensures { result ≡ (rule self.now).may_leave (members roster.now) store };

    ghost lawful: { (p : Self) → Lawful (rule p) };
}

// A policy, chosen by name while the program runs, is a placement. Each call is a match over the two, and no
// `dyn`: a placement's laws name its type.
ghost use Rattle.placement.specs.Policies.{rule_of};
ghost use Rattle.placement.specs.declared.policies.Policy.TheVariants.{Rendezvous, Jump};
ghost use Rattle.placement.specs.Firsts.{rendezvous_lawful};
ghost use Rattle.placement.specs.Walking.{jump_lawful};

use crate::jump::Jump;
use crate::placing::Placement;
use crate::policies::Policy;
use crate::rendezvous::Rendezvous;
use crate::roster::Roster;

impl Placement for Policy {
    ghost rule = { rule_of };

    ghost lawful = { elim [ Rendezvous ↦ rendezvous_lawful | Jump ↦ jump_lawful ] };

    fn greatest(&self) -> usize {
        match self {
            Policy::Rendezvous => Rendezvous.greatest(),
            Policy::Jump => Jump.greatest(),
        }
    }

    fn list(&self, key: u64, roster: &Roster, copies: usize) -> Roster {
        match self {
            Policy::Rendezvous => Rendezvous.list(key, roster, copies),
            Policy::Jump => Jump.list(key, roster, copies),
        }
    }

    fn may_leave(&self, roster: &Roster, store: usize) -> bool {
        match self {
            Policy::Rendezvous => Rendezvous.may_leave(roster, store),
            Policy::Jump => Jump.may_leave(roster, store),
        }
    }
}

// The service over lent stores. `Settled` has no change open and `Moving` has one; each call presumes that the stores
// it is lent are standing, and nothing else. A refusal hands the service back as it was. Each contract says itself that
// the stores stand and what stays as it was: a caller reads one contract alone. A bank is lent to one call and held by
// nothing, so bank and store come beside one another.
#![tactic(auto)]

pub mod handed;
pub mod moving;
pub mod settled;
pub mod states;

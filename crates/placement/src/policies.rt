// The policies by name.
#[derive(Clone, Copy, PartialEq, Eq, Debug)]
pub enum Policy {
    Rendezvous,
    Jump,
}

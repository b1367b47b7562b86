use store::Put;
use store::fault::StoreFault;
use store::value::Value;

// What a store answered when it was asked for its cap, and a pair was put, read, taken out, and read
// again.
#[derive(Drop)]
pub struct Trial {
    pub cap: usize,
    pub put: Result<Put, StoreFault>,
    pub got: Option<Value>,
    pub removed: bool,
    pub after: Option<Value>,
}

// Why a store refuses, with the number by which reports name it.
#[derive(Clone, Copy, PartialEq, Eq, Debug)]
pub enum StoreFault {
    // An opening beyond one of the store's limits.
    BeyondLimit = 2,
    // An opening from bytes that are no image of a store.
    BadImage = 3,
    // A put of an absent key into a store that holds as many pairs as its cap, or more.
    Full = 4,
    // An opening over a store that must be empty and holds a pair.
    HoldsPair = 6,
}

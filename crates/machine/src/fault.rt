// Why a call of the service is refused. After any refusal the service and its stores are as before.
use entry::fault::EntryFault;
use store::fault::StoreFault;

// A store's own fault, and the store whose it is.
#[derive(Clone, Copy)]
pub struct StoreRefusal {
    pub store: usize,
    pub fault: StoreFault,
}

#[derive(Clone, Copy)]
pub enum Fault {
    // An opening with a number of stores, members or copies beyond its limits.
    BeyondLimit,
    // A store refuses: it is full, or it should be empty and holds a pair.
    Store(StoreRefusal),
    // A join or leave of a number that is none of the stores', a join of a member, or a leave of a store that is none.
    WrongStore,
    // A join or leave while a change is open.
    InChange,
    // A step while none is.
    NoChange,
    // The call was lent more stores or fewer than the service has.
    OtherStores,
    // A step found the key on some store, and the first store of the key's list lacks it.
    Lacks(u64),
    // A leave of the only member, or of one that the placement does not let go.
    MayNotLeave,
    // A typed call with an entry beyond its limits, or on words that are not of that kind.
    Entry(EntryFault),
}

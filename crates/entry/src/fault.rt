// Why an entry, or two words, are refused. Reports number both 12.
#[derive(Clone, Copy, PartialEq, Eq, Debug)]
pub enum EntryFault {
    // The entry is beyond a limit of its kind.
    BeyondLimit,
    // No legal entry of the kind asked for gives these words.
    OtherKind,
}

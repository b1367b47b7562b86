// What a key maps to: two words.
#[derive(Clone, Copy, PartialEq, Eq, Debug)]
pub struct Value {
    pub a: u64,
    pub b: u64,
}

// Which of two stores is used.
#[derive(Clone, Copy)]
pub enum Marked {
    First,
    Second,
}

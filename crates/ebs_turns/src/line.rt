// A line of turns.

/// What a turn does to a lease, which is named by a number.
#[derive(Clone, Copy, Debug, PartialEq, Eq)]
pub enum Deed {
    Nothing,
    Takes(u64),
    Spends(u64),
}

/// What a turn leaves behind: its item, and its deed.
#[derive(Drop)]
pub struct Left<I> {
    pub item: I,
    pub deed: Deed,
}

/// A turn in the line, with the number of the pass that took it. No value of it is made.
pub struct Turn<I> {
    pub by: u64,
    pub item: I,
    pub deed: Deed,
}

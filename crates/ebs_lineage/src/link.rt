// Where a node stands among its parent's children.
use crate::place::Place;

/// A node's newest child from which a held node is reached, the next older and the next newer such child of its parent, a node that
/// each way down from it leads to where one was noted, and its place where it waits.
#[derive(Clone, Copy, Debug)]
pub struct Link {
    pub first_kid: Option<u64>,
    pub next_kid: Option<u64>,
    pub newer_kid: Option<u64>,
    pub below: Option<u64>,
    pub place: Option<Place>,
}

// Where a node stands among those that wait.

/// So many of the node's blocks wait, which are those at an index and above it, and another node comes after this one.
#[derive(Clone, Copy, Debug)]
pub struct Place {
    pub from: u32,
    pub left: u64,
    pub next: Option<u64>,
}

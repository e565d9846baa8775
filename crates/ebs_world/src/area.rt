/// The areas of a disk, each a row of bytes of its own.
#[derive(Clone, Copy, Debug, PartialEq, Eq)]
pub enum Area {
    Journal0,
    Journal1,
    Blocks,
    Archive,
}

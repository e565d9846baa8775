// What a copy is of.
use ebs_model::SnapKey;
use ebs_tables::Key;

/// An index of a snapshot.
#[derive(Clone, Copy, Debug, PartialEq, Eq, PartialOrd, Ord)]
pub struct CopyKey {
    pub key: SnapKey,
    pub index: u32,
}

impl Key for CopyKey {
    ghost use Rattle.ebs_archive.specs.inner.Orders.{exact_copy_keys};

    ghost exact = { exact_copy_keys };
}

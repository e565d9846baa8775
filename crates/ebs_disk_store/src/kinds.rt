// Kinds of calls, by what they do with the disk.
ghost use Rattle.ebs_disk_store.specs.inner.Applied.{IsOf};

use ebs_model::Request;

/// What a call does with the disk.
#[derive(Clone, Copy, Debug, PartialEq, Eq)]
pub(crate) enum Kind {
    /// Nothing.
    View,
    /// A block is read.
    Read,
    /// A change without a block is recorded.
    Change,
    /// A block is staged, and a change with it recorded.
    Put,
}

pub(crate) fn kind_of(request: &Request) -> Kind
    ensures { IsOf result request.now }
{
    match request {
        Request::ListSnapshotBlocks { .. }
        | Request::ListChangedBlocks { .. }
        | Request::DescribeSnapshot { .. }
        | Request::DescribeSnapshots { .. }
        | Request::DescribeVolume { .. }
        | Request::GetRule { .. }
        | Request::ListRules
        | Request::ListBin { .. }
        | Request::GetPolicy { .. } => Kind::View,
        Request::GetSnapshotBlock { .. } | Request::ReadVolumeBlock { .. } => Kind::Read,
        Request::PutSnapshotBlock { .. } | Request::WriteVolumeBlock { .. } => Kind::Put,
        _ => Kind::Change,
    }
}

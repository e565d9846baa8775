// Where a block goes.
use ebs_model::{SnapKey, VolKey};

/// What a block is written to.
#[derive(Clone, Copy, Debug)]
pub enum Place {
    /// An open upload.
    Upload(SnapKey),
    Volume(VolKey),
}

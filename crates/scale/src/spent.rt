// Calls behind the last change that there may be.
use crate::calls::{Call, ask, put};
use crate::told::Told;
use ebs_kept::Kept;
use ebs_model::SnapKey;

/// Whether the call is refused since no change is left.
pub fn is_spent(kept: &mut Kept, call: Call) -> bool {
    matches!(ask(kept, call), Told::NoChangeLeft)
}

/// Whether a put into the upload is.
pub fn is_put_spent(kept: &mut Kept, key: &SnapKey) -> bool {
    matches!(put(kept, key, 0), Told::NoChangeLeft)
}

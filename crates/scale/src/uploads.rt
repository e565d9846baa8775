// Uploads, and what is listed of them.
use crate::calls::{Call, ask, put};
use crate::told::Told;
use ebs_kept::Kept;
use ebs_model::SnapKey;

/// A new upload.
pub fn start(kept: &mut Kept, parent: Option<SnapKey>) -> Option<SnapKey> {
    match ask(kept, Call::Start(parent)) {
        Told::Started(key) => Some(key),
        _ => None,
    }
}

/// How many blocks were put, of so many from an index on.
pub fn put_all(kept: &mut Kept, key: &SnapKey, first: u64, count: u64) -> u64 {
    let mut done = 0u64;
    for offset in 0..count {
        if let Told::Written = put(kept, key, first.saturating_add(offset)) {
            done = done.saturating_add(1);
        }
    }
    done
}

/// Whether the upload is completed with so many blocks.
pub fn complete(kept: &mut Kept, key: &SnapKey, count: u64) -> bool {
    matches!(ask(kept, Call::End(*key, count)), Told::Completed)
}

/// How many items a page lists, and the last index on it.
pub fn page(kept: &mut Kept, call: Call) -> (usize, u32) {
    match ask(kept, call) {
        Told::Listed(count, last) => (count, last),
        _ => (0, 0),
    }
}

/// The bytes of the description that is shown of a snapshot.
pub fn shown(kept: &mut Kept, key: &SnapKey) -> usize {
    match ask(kept, Call::Describe(*key)) {
        Told::Described(length) => length,
        _ => 0,
    }
}

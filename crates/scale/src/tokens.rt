// Volumes that are created with client tokens of their own, and deleted.
use crate::calls::{Call, ask};
use crate::told::Told;
use ebs_kept::Kept;
use ebs_model::VolKey;

/// The volume that is told of the client token, where one is.
pub fn create(kept: &mut Kept, token: u64) -> Option<VolKey> {
    match ask(kept, Call::Create(token)) {
        Told::Volume(key) => Some(key),
        _ => None,
    }
}

/// How many client tokens the refusal allows, where it is that there are too many.
pub fn most(kept: &mut Kept, token: u64) -> Option<u64> {
    match ask(kept, Call::Create(token)) {
        Told::Tokens(number) => Some(number),
        _ => None,
    }
}

// Whether a volume was created with the client token, and deleted.
fn is_used(kept: &mut Kept, token: u64) -> bool {
    match create(kept, token) {
        Some(key) => matches!(ask(kept, Call::Delete(key)), Told::Done),
        None => false,
    }
}

/// How many of so many client tokens were used for a volume that was deleted afterwards.
pub fn use_up(kept: &mut Kept, count: u64) -> u64 {
    let mut done = 0u64;
    for token in 0..count {
        if is_used(kept, token) {
            done = done.saturating_add(1);
        }
    }
    done
}

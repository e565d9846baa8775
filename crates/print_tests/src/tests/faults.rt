// Refusals for a client token, a rule's lock, a checksum and a disk.
use super::*;
use ebs_model::FirstKey;

const TOKEN_OF_A_SNAPSHOT: &str =
    "HTTP/1.1 409 Conflict\r\nContent-Type: application/json\r\nContent-Length: 100\r\n\r\n{\"Message\":\"token made snap-00000000010000000\",\"Reason\":\"TOKEN_CONFLICT\",\"Type\":\"ConflictException\"}";

const TOKEN_OF_A_VOLUME: &str =
    "HTTP/1.1 409 Conflict\r\nContent-Type: application/json\r\nContent-Length: 99\r\n\r\n{\"Message\":\"token made vol-e8d4a50ffffffffff\",\"Reason\":\"TOKEN_CONFLICT\",\"Type\":\"ConflictException\"}";

const RULE_LOCKED: &str =
    "HTTP/1.1 409 Conflict\r\nContent-Type: application/json\r\nContent-Length: 78\r\n\r\n{\"Message\":\"rule is locked\",\"Reason\":\"RULE_LOCKED\",\"Type\":\"ConflictException\"}";

const UNAVAILABLE: &str =
    "HTTP/1.1 503 Service Unavailable\r\nContent-Type: application/json\r\nContent-Length: 81\r\n\r\n{\"Message\":\"unavailable\",\"Reason\":\"UNAVAILABLE\",\"Type\":\"InternalServerException\"}";

const DAMAGED: &str =
    "HTTP/1.1 500 Internal Server Error\r\nContent-Type: application/json\r\nContent-Length: 178\r\n\r\n{\"Message\":\"damaged: stored AAECAwQFBgcICQoLDA0ODxAREhMUFRYXGBkaGxwdHh8=, found 4OHi4+Tl5ufo6err7O3u7/Dx8vP09fb3+Pn6+/z9/v8=\",\"Reason\":\"DAMAGED\",\"Type\":\"InternalServerException\"}";

const CHECKSUM_DIFFERS: &str =
    "HTTP/1.1 400 Bad Request\r\nContent-Type: application/json\r\nContent-Length: 183\r\n\r\n{\"Message\":\"checksum stated AAECAwQFBgcICQoLDA0ODxAREhMUFRYXGBkaGxwdHh8=, found 4OHi4+Tl5ufo6err7O3u7/Dx8vP09fb3+Pn6+/z9/v8=\",\"Reason\":\"CHECKSUM_DIFFERS\",\"Type\":\"ValidationException\"}";

fn made_a_snapshot() -> Refusal {
    Refusal::TokenConflict(FirstKey::Snap(snap(0)))
}

fn made_a_volume() -> Refusal {
    Refusal::TokenConflict(FirstKey::Vol(last_volume()))
}

#[test]
fn refusals_of_a_client_token(rt: HostRuntime) {
    let alloc = rt.alloc();
    assert!(rt;
        is_refused(alloc, made_a_snapshot(), TOKEN_OF_A_SNAPSHOT)
            && is_refused(alloc, made_a_volume(), TOKEN_OF_A_VOLUME)
    );
}

fn differs() -> Refusal {
    Refusal::Checksum {
        stated: LOW,
        found: HIGH,
    }
}

fn damaged() -> Refusal {
    Refusal::Damaged {
        stored: LOW,
        found: HIGH,
    }
}

#[test]
fn refusals_of_a_rule_a_checksum_and_a_disk(rt: HostRuntime) {
    let alloc = rt.alloc();
    assert!(rt;
        is_refused(alloc, Refusal::RuleLocked, RULE_LOCKED)
            && is_refused(alloc, Refusal::Unavailable, UNAVAILABLE)
            && is_refused(alloc, differs(), CHECKSUM_DIFFERS)
            && is_refused(alloc, damaged(), DAMAGED)
    );
}

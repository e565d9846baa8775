// The status that tells how serving ended.
ghost use Rattle.std.specs.Prelude.{◌≡◌};
ghost use Rattle.std.specs.List.{list_any};
ghost use Rattle.ebs_server.specs.Statuses.{ended_at, is_failed_end, is_starved_end, status_at};

use crate::post::{Post, PostEnd};
use crate::serving::ServeEnd;
use ebs_disk_store::OpenRefusal;

/// The status of a program that served: 0 where each post was closed, 2 where the disk failed at the start, 3 where it has no store that can be
/// used, 4 where a listener failed, and else 8, for want of memory.
pub fn serve_status<L, K, D>(end: &ServeEnd<L, K, D>) -> u8
    ensures { result ≡ status_at end.now }
{
    match end {
        ServeEnd::Refused(OpenRefusal::DiskFailed, _) => 2,
        ServeEnd::Refused(_, _) => 3,
        ServeEnd::Ended(ends, _) => ended_status(ends.as_slice()),
        ServeEnd::Memory(_) => 8,
    }
}

// The status by the posts' ends.
fn ended_status<L, K>(ends: &[(Post<L, K>, PostEnd)]) -> u8
    ensures { result ≡ ended_at ends.now }
{
    if has_failed(ends) {
        return 4;
    }
    if has_starved(ends) { 8 } else { 0 }
}

fn has_failed<L, K>(ends: &[(Post<L, K>, PostEnd)]) -> bool
    ensures { result ≡ list_any (λ end. is_failed_end end.1) ends.now }
{
    ends.iter().any(|end| is_failed(end.1))
}

fn has_starved<L, K>(ends: &[(Post<L, K>, PostEnd)]) -> bool
    ensures { result ≡ list_any (λ end. is_starved_end end.1) ends.now }
{
    ends.iter().any(|end| is_starved(end.1))
}

fn is_failed(end: PostEnd) -> bool
    ensures { result ≡ is_failed_end end }
{
    matches!(end, PostEnd::ListenFailed)
}

fn is_starved(end: PostEnd) -> bool
    ensures { result ≡ is_starved_end end }
{
    matches!(end, PostEnd::Memory)
}

// What stands in front of an area's checkpoint, and which area counts.
ghost use Rattle.std.specs.Prelude.{◌≡◌, ◌+◌, ◌≤◌, ◌^◌, true, false, length, Some, IfOk, IfErr, IfNone, IfSome, nat_eq, nat_lt, not, ◌&&◌, ◌||◌};
ghost use Rattle.ebs_world.specs.declared.area.Area.TheVariants.{Journal0, Journal1};
ghost use Rattle.ebs_world.specs.Image.{Image};
ghost use Rattle.ebs_journal.specs.Opening.{front_of, is_open, has_magic, second_counts, counted_of, counted, Counts, IsMade, IsRefused};
ghost use Rattle.ebs_journal.specs.inner.Areas.{is_journal, other};
ghost use Rattle.ebs_journal.specs.inner.Reading.{IsFront, IsFound, Judges};

use crate::refusal::JournalRefusal;
use ebs_world::Area;

pub(crate) const MAGIC: [u8; 8] = *b"EBSJRNAL";

/// An area's gate and magic, and the numbers behind them.
#[derive(Clone, Copy)]
pub(crate) struct Front {
    pub(crate) nine: [u8; 9],
    pub(crate) version: u32,
    pub(crate) epoch: u64,
    pub(crate) length: u64,
}

/// The area that counts, with a front that can be followed, and whether the other one's gate is closed.
#[derive(Clone, Copy)]
pub(crate) struct Found {
    pub(crate) area: Area,
    pub(crate) front: Front,
    pub(crate) shut: bool,
}

fn is_open(front: &Front) -> bool
    ensures { result ≡ is_open front.now }
{
    front.nine[0] == 1
}

fn has_magic(front: &Front) -> bool
    ensures { result ≡ has_magic front.now }
{
    front.nine[1..] == MAGIC[..]
}

// Whether the second area counts, and not the first.
#[tactic(auto, unfolding(crate::specs::Opening::second_counts))]
fn second_counts(first: &Front, second: &Front) -> bool
    ensures { result ≡ second_counts first.now second.now }
{
    is_open(second) && (!is_open(first) || is_older(first, second))
}

// Of two open areas.
fn is_older(first: &Front, second: &Front) -> bool
    ensures { result ≡ (has_magic first.now && (not (has_magic second.now) || nat_lt first.now.epoch second.now.epoch)) }
{
    has_magic(first) && (!has_magic(second) || first.epoch < second.epoch)
}

// Whether the area that counts can be followed.
fn judge(area: Area, front: &Front, behind: &Front) -> Result<Found, JournalRefusal>
    ensures found { IfOk result (λ found. (found.area ≡ area) × (found.front ≡ front.now) × (has_magic front.now ≡ true) × (front.now.version ≡ 1) × (front.now.length ≤ 2 ^ 40)) }
    ensures shut { IfOk result (λ found. found.shut ≡ not (is_open behind.now)) }
    ensures refused { IfErr result (Judges (λ refusal. (c : Image) → Counts c area front.now → IsRefused c refusal)) }
{
    if !has_magic(front) {
        return Err(JournalRefusal::NotAJournal(front.nine));
    }
    if front.version != 1 {
        return Err(JournalRefusal::BadVersion(front.version));
    }
    if front.length > 1 << 40 {
        return Err(JournalRefusal::BadLength(21));
    }
    Ok(Found {
        area,
        front: *front,
        shut: !is_open(behind),
    })
}

/// Finds the area that counts by the fronts of both.
#[tactic(auto, unfolding(crate::specs::Opening::counted_of))]
pub(crate) fn find(first: &Front, second: &Front) -> Result<Found, JournalRefusal>
    ensures fits { IfOk result (λ found. (is_journal found.area ≡ true) × (found.front.length ≤ 2 ^ 40)) }
    ensures found { IfOk result (λ found. (c : Image) → IsMade c → IsFront (c Journal0) first.now → IsFront (c Journal1) second.now → IsFound c found) }
    ensures refused { IfErr result (Judges (λ refusal. (c : Image) → IsMade c → IsFront (c Journal0) first.now → IsFront (c Journal1) second.now → IsRefused c refusal)) }
{
    if !is_open(first) && !is_open(second) {
        return Err(JournalRefusal::NotAJournal(first.nine));
    }
    if second_counts(first, second) {
        return judge(Area::Journal1, second, first);
    }
    judge(Area::Journal0, first, second)
}

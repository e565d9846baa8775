// Reading a journal's area.
ghost use Rattle.std.specs.Prelude.{◌≡◌, ◌≢◌, ◌+◌, ◌-◌, ◌*◌, ◌<◌, ◌≤◌, ◌^◌, ◌∷◌, [], ◌++◌, ℕ, List, true, length, take, drop, IfOk, IfErr};
ghost use Rattle.std.specs.Int.{w32, w64, to_be_bytes};
ghost use Rattle.ebs_world.specs.Image.{Spells, Everywhere};
ghost use Rattle.ebs_world.specs.View.{Ran, IsCaused};
ghost use Rattle.ebs_journal.specs.Format.{entry, IsRecord};
ghost use Rattle.ebs_journal.specs.Opening.{front_of};
ghost use Rattle.ebs_journal.specs.inner.Reading.{IsAhead, IsFront, Refuses, IsNo, IsEntryRefusal};

use crate::front::Front;
use crate::refusal::JournalRefusal;
use ebs_world::{Area, Disk, Failed};
use std::alloc::Global;

/// One byte.
pub(crate) fn read_byte<D: Disk>(disk: &mut D, area: Area, at: u64) -> Result<u8, Failed>
    requires { at + 1 ≤ 2 ^ 62 }
    ensures byte { IfOk result (λ b. (D.view disk.old).tells ≡ true → b ≡ (D.view disk.old).reads area at) }
    ensures ran { Ran Everywhere (D.view disk.old) (D.view disk.new) }
    ensures cause { IsCaused (D.view disk.old) (D.view disk.new) result }
{
    let mut room = [0u8; 1];
    disk.read(area, at, &mut room)?;
    Ok(room[0])
}

fn read_nine<D: Disk>(disk: &mut D, area: Area) -> Result<[u8; 9], Failed>
    ensures bytes { IfOk result (λ nine. (D.view disk.old).tells ≡ true → Spells ((D.view disk.old).reads area) 0 nine) }
    ensures ran { Ran Everywhere (D.view disk.old) (D.view disk.new) }
    ensures cause { IsCaused (D.view disk.old) (D.view disk.new) result }
{
    let mut room = [0u8; 9];
    disk.read(area, 0, &mut room)?;
    Ok(room)
}

fn read_u32<D: Disk>(disk: &mut D, area: Area, at: u64) -> Result<u32, Failed>
    requires { at + 4 ≤ 2 ^ 62 }
    ensures bytes { IfOk result (λ n. (D.view disk.old).tells ≡ true → Spells ((D.view disk.old).reads area) at (to_be_bytes w32 n)) }
    ensures ran { Ran Everywhere (D.view disk.old) (D.view disk.new) }
    ensures cause { IsCaused (D.view disk.old) (D.view disk.new) result }
{
    let mut room = [0u8; 4];
    disk.read(area, at, &mut room)?;
    Ok(short_number(room))
}

fn read_u64<D: Disk>(disk: &mut D, area: Area, at: u64) -> Result<u64, Failed>
    requires { at + 8 ≤ 2 ^ 62 }
    ensures bytes { IfOk result (λ n. (D.view disk.old).tells ≡ true → Spells ((D.view disk.old).reads area) at (to_be_bytes w64 n)) }
    ensures ran { Ran Everywhere (D.view disk.old) (D.view disk.new) }
    ensures cause { IsCaused (D.view disk.old) (D.view disk.new) result }
{
    let mut room = [0u8; 8];
    disk.read(area, at, &mut room)?;
    Ok(long_number(room))
}

fn short_number(room: [u8; 4]) -> u32
    ensures { to_be_bytes w32 result ≡ room }
{
    u32::from_be_bytes(room)
}

fn long_number(room: [u8; 8]) -> u64
    ensures { to_be_bytes w64 result ≡ room }
{
    u64::from_be_bytes(room)
}

/// The front of an area.
pub(crate) fn read_front<D: Disk>(disk: &mut D, area: Area) -> Result<Front, Failed>
    ensures front { IfOk result (λ front. (D.view disk.old).tells ≡ true → IsFront ((D.view disk.old).reads area) front) }
    ensures ran { Ran Everywhere (D.view disk.old) (D.view disk.new) }
    ensures cause { IsCaused (D.view disk.old) (D.view disk.new) result }
{
    let nine = read_nine(disk, area)?;
    let version = read_u32(disk, area, 9)?;
    let epoch = read_u64(disk, area, 13)?;
    let length = read_u64(disk, area, 21)?;
    Ok(Front {
        nine,
        version,
        epoch,
        length,
    })
}

/// Bytes from a place on.
pub(crate) fn read_bytes<D: Disk>(
    alloc: Global,
    disk: &mut D,
    area: Area,
    at: u64,
    n: usize,
) -> Result<Vec<u8>, JournalRefusal>
    requires { at + n ≤ 2 ^ 62 }
    ensures size { IfOk result (λ v. length v.items ≡ n) }
    ensures bytes { IfOk result (λ v. (D.view disk.old).tells ≡ true → Spells ((D.view disk.old).reads area) at v.items) }
    ensures ran { Ran Everywhere (D.view disk.old) (D.view disk.new) }
    ensures refused { IfErr result (Refuses (D.view disk.old) (D.view disk.new) IsNo) }
{
    let mut room = vec![in alloc; 0u8; n]?;
    disk.read(area, at, &mut room)?;
    Ok(room)
}

/// A gate, and what stands behind it where a record's length would be.
#[derive(Clone, Copy)]
pub(crate) struct Ahead {
    pub(crate) gate: u8,
    pub(crate) length: u32,
}

pub(crate) fn read_ahead<D: Disk>(disk: &mut D, area: Area, at: u64) -> Result<Ahead, Failed>
    requires { at + 5 ≤ 2 ^ 62 }
    ensures ahead { IfOk result (λ ahead. (D.view disk.old).tells ≡ true → IsAhead ((D.view disk.old).reads area) at ahead) }
    ensures ran { Ran Everywhere (D.view disk.old) (D.view disk.new) }
    ensures cause { IsCaused (D.view disk.old) (D.view disk.new) result }
{
    let gate = read_byte(disk, area, at)?;
    let length = read_u32(disk, area, at + 1)?;
    Ok(Ahead { gate, length })
}

// Takes what is ahead off the end of a record's bytes.
fn split(bytes: &mut Vec<u8>, n: usize) -> Ahead
    requires { length bytes.old.items ≡ n + 5 }
    ensures bytes { bytes.new.items ≡ take n bytes.old.items }
    ensures ahead { result.gate ∷ to_be_bytes w32 result.length ≡ drop n bytes.old.items }
{
    let gate = bytes[n];
    let mut room = [0u8; 4];
    room.copy_from_slice(&bytes[n + 1..]);
    bytes.truncate(n);
    Ahead {
        gate,
        length: short_number(room),
    }
}

/// The record behind an open gate, and what is ahead at its end.
pub(crate) fn read_entry<D: Disk>(
    alloc: Global,
    disk: &mut D,
    area: Area,
    gate: u64,
    size: u32,
) -> Result<(Vec<u8>, Ahead), JournalRefusal>
    requires { gate ≤ 2 ^ 62 - 2 ^ 21 }
    ensures size { IfOk result (λ p. IsRecord p.0.items × (length p.0.items ≡ size) × (gate + 5 + length p.0.items ≤ 2 ^ 62 - 2 ^ 21)) }
    ensures bytes { IfOk result (λ p. (D.view disk.old).tells ≡ true → Spells ((D.view disk.old).reads area) (gate + 5) p.0.items) }
    ensures ahead { IfOk result (λ p. (D.view disk.old).tells ≡ true → IsAhead ((D.view disk.old).reads area) (gate + 5 + size) p.1) }
    ensures ran { Ran Everywhere (D.view disk.old) (D.view disk.new) }
    ensures refused { IfErr result (Refuses (D.view disk.old) (D.view disk.new) (IsEntryRefusal gate size)) }
{
    let n = size as u64;
    if n == 0 || n > 1048576 || gate + 5 + n > (1 << 62) - (1 << 21) {
        return Err(JournalRefusal::BadLength(gate));
    }
    let mut payload = read_bytes(alloc, disk, area, gate + 5, size as usize + 5)?;
    let ahead = split(&mut payload, size as usize);
    Ok((payload, ahead))
}

// A new store.
ghost use Rattle.std.specs.Prelude.{◌≡◌, true, IfOk, IfErr, OnOk};
ghost use Rattle.ebs_world.specs.View.{Leaves, Ran};
ghost use Rattle.ebs_journal.specs.Opening.{OffMaking};
ghost use Rattle.ebs_recovery.specs.inner.Fits.{Fits, new_store};
ghost use Rattle.ebs_disk_store.specs.Opened.{IsUnmarked, KeepsMade, NoneNewOrOld};
ghost use Rattle.ebs_commands.specs.Ends.{Inits, IsUnmade};
ghost use Rattle.ebs_commands.specs.inner.Ends.{IsMade};

use crate::ending::{CommandEnd, put_line};
use ebs_disk_store::{OpenRefusal, Promise, Store};
use ebs_world::{Disk, Sink};
use std::alloc::Global;

const MADE: &[u8] = b"made\n";

/// A store of the empty machine with this secret, on a disk where none was made.
pub fn make<S: Promise, D: Disk>(
    alloc: Global,
    disk: &mut D,
    secret: [u8; 32],
) -> Result<Store<S>, CommandEnd>
    ensures fits { IfOk result (λ store. Fits S.sound (D.view disk.new) store) }
    ensures store { IfOk result (λ store. store ≡ new_store secret store.journal) }
    ensures unmarked { IfOk result (λ store. (D.view disk.old).tells ≡ true → IsUnmarked (D.view disk.old)) }
    ensures unmade { IfErr result (λ end. IsUnmade end (D.view disk.old) (D.view disk.new)) }
    ensures moments { (D.view disk.old).tells ≡ true → (D.view disk.old).honest ≡ true → Leaves (D.view disk.old) (D.view disk.new) (NoneNewOrOld (D.view disk.old) secret) }
    ensures ran { Ran OffMaking (D.view disk.old) (D.view disk.new) }
    ensures kept { KeepsMade (D.view disk.old) (D.view disk.new) }
{
    match Store::<S>::make(alloc, disk, secret) {
        Ok(store) => Ok(store),
        Err(OpenRefusal::DiskFailed) => Err(CommandEnd::DiskFailed),
        Err(OpenRefusal::AlreadyMade) => Err(CommandEnd::AlreadyMade),
        Err(OpenRefusal::Memory) => Err(CommandEnd::Memory),
        Err(_) => unreachable!(),
    }
}

fn let_go<S: Promise>(store: Store<S>) {
    drop(store);
}

// Makes that store, and lets it go.
fn make_alone<S: Promise, D: Disk>(
    alloc: Global,
    disk: &mut D,
    secret: [u8; 32],
) -> Result<(), CommandEnd>
    ensures made { OnOk result (IsMade S.sound (D.view disk.old) (D.view disk.new) secret) }
    ensures unmade { IfErr result (λ end. IsUnmade end (D.view disk.old) (D.view disk.new)) }
    ensures moments { (D.view disk.old).tells ≡ true → (D.view disk.old).honest ≡ true → Leaves (D.view disk.old) (D.view disk.new) (NoneNewOrOld (D.view disk.old) secret) }
    ensures ran { Ran OffMaking (D.view disk.old) (D.view disk.new) }
    ensures kept { KeepsMade (D.view disk.old) (D.view disk.new) }
{
    match make::<S, D>(alloc, disk, secret) {
        Ok(store) => {
            let_go(store);
            Ok(())
        }
        Err(end) => Err(end),
    }
}

/// Makes the store of the empty machine with this secret, on a disk where none was made, and says so.
pub fn init<S: Promise, D: Disk, O: Sink>(
    alloc: Global,
    disk: &mut D,
    output: &mut O,
    secret: [u8; 32],
) -> CommandEnd
    ensures ends { Inits result (IsMade S.sound (D.view disk.old) (D.view disk.new) secret) (D.view disk.old) (D.view disk.new) (O.outlet output.old) (O.outlet output.new) }

    // At each moment of an honest disk no store was made, the new one is whole, or an image is one of before.
    ensures moments { (D.view disk.old).tells ≡ true → (D.view disk.old).honest ≡ true → Leaves (D.view disk.old) (D.view disk.new) (NoneNewOrOld (D.view disk.old) secret) }
    ensures ran { Ran OffMaking (D.view disk.old) (D.view disk.new) }

    // Over a store that was made nothing is written, however it ends.
    ensures kept { KeepsMade (D.view disk.old) (D.view disk.new) }
{
    match make_alone::<S, D>(alloc, disk, secret) {
        Ok(()) => match put_line(output, MADE) {
            Ok(()) => CommandEnd::Done,
            Err(end) => end,
        },
        Err(end) => end,
    }
}

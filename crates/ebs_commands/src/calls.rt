// One call of a command.
ghost use Rattle.std.specs.Prelude.{◌≡◌};
ghost use Rattle.ebs_recovery.specs.inner.Fits.{Fits};
ghost use Rattle.ebs_commands.specs.inner.Chains.{Applies};
ghost use Rattle.ebs_commands.specs.Ticks.{Asked};

use ebs_disk_store::{Promise, Store};
use ebs_model::{Account, Answer, Moment, Request};
use ebs_world::Disk;

/// A call, as the store answers it.
pub fn call<S: Promise, D: Disk>(
    store: &mut Store<S>,
    disk: &mut D,
    account: Account,
    reading: Moment,
    request: Request,
) -> Answer
    requires fits { Fits S.sound (D.view disk.old) store.old }
    ensures fits { Fits S.sound (D.view disk.new) store.new }
    ensures applies { (let x : Asked = record { account = account; reading = reading; request = request } in Applies D.view S.sound disk.old store.old x result disk.new store.new) }
{
    store.apply(disk, account, reading, request)
}

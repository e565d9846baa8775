// What follows of the messages of a session, and of a command's own calls.
ghost use Rattle.std.specs.Prelude.{◌≡◌, List, None};
ghost use Rattle.ebs_exchanges.specs.Exchanges.{Exchange};
ghost use Rattle.ebs_exchanges.specs.Stops.{OwnCall};
ghost use Rattle.ebs_session.specs.Session.{Chain};
ghost use Rattle.ebs_recovery.specs.inner.Fits.{Fits, Seen};
ghost use Rattle.ebs_disk_store.specs.inner.Told.{IfSound};
ghost use Rattle.ebs_service.specs.inner.Served.{served_on, OwnChain};
ghost use Rattle.ebs_service.specs.Fronts.{IsCounted};
ghost use Rattle.ebs_service.specs.inner.Fronts.{CallsStood, Stays, Stood};

use ebs_disk_store::{Promise, recorded_calls_are_asked};
use ebs_recovery::images_stand_for_one;
use ebs_world::Disk;

/// Over any disk, no more calls are answered E17 than the disk has failed.
pub fn failures_are_counted<S: Promise, D: Disk>()
    ensures { (s t : Seen) (old new : D) (exchanges : List Exchange) → Chain (served_on S.sound D.view) s old exchanges t new → IsCounted (D.view old) exchanges (D.view new) }
{}

/// Over an honest disk the exchanges are a run of the machine, each change of which is recorded once it is answered; and what a crash leaves at any moment
/// has all changes that were answered by then, and one more at most.
pub fn sessions_stand<S: Promise, D: Disk>()
    ensures { (s t : Seen) (old new : D) (exchanges : List Exchange) → Chain (served_on S.sound D.view) s old exchanges t new → Fits S.sound (D.view new) t → s.pending ≡ None
        → IfSound S.sound (D.view old) (Stood (D.view old) (D.view new) s t exchanges) }
{
    images_stand_for_one::<D>();
    recorded_calls_are_asked();
}

/// Over an honest disk no crash takes back what was answered: what one leaves at any moment since some exchanges were answered stands for a front that has
/// them, or for that and one change more.
pub fn answers_stay<S: Promise, D: Disk>()
    ensures { (s u t : Seen) (old mid new : D) (front back : List Exchange) → Chain (served_on S.sound D.view) s old front u mid → Chain (served_on S.sound D.view) u mid back t new
        → Fits S.sound (D.view new) t → s.pending ≡ None → IfSound S.sound (D.view old) (Stays (D.view old) (D.view mid) (D.view new) s front back) }
{
    images_stand_for_one::<D>();
    recorded_calls_are_asked();
}

/// So it is of the calls that a command makes by itself.
pub fn own_calls_stand<S: Promise, D: Disk>()
    ensures { (s t : Seen) (old new : D) (calls : List OwnCall) → OwnChain S.sound D.view s old calls t new → Fits S.sound (D.view new) t → s.pending ≡ None
        → IfSound S.sound (D.view old) (CallsStood (D.view old) (D.view new) s t calls) }
{
    images_stand_for_one::<D>();
    recorded_calls_are_asked();
}

// Calls that change nothing and read no block.
ghost use Rattle.std.specs.Prelude.{◌≡◌, ◌≤◌, ◌^◌, IfOk, map as list_map};
ghost use Rattle.std.specs.FinMap as fin;
ghost use Rattle.ebs_model.specs.declared.keys.PolicyKey.{PolicyKey};
ghost use Rattle.ebs_model.specs.declared.keys.AnyKey.TheVariants as any;
ghost use Rattle.ebs_model.specs.declared.policy.Policy.{Policy};
ghost use Rattle.ebs_model.specs.Machine.{advance};
ghost use Rattle.ebs_kept.specs.inner.Wants.{MayRunOut};
ghost use Rattle.ebs_recovery.specs.inner.Fits.{Fits};
ghost use Rattle.ebs_disk_store.specs.inner.Told.{IfSound, at_reading};
ghost use Rattle.ebs_disk_store.specs.inner.Turned.{Turn, kept_call};
ghost use Rattle.ebs_disk_store.specs.inner.Viewed.{IsView, Shows, Viewed};

use crate::store::{Promise, Store};
use crate::turning::check_members;
use ebs_model::{Account, Answer, Decision, Failure, Ids, Moment, Request, kept_form};
use ebs_world::Disk;
use std::alloc::AllocError;

impl<S: Promise> Store<S> {
    // What the kept form shows at the moment.
    fn look(&self, account: Account, now: Moment, request: &Request) -> Result<Answer, Failure>
        requires later { self.now.recorded.clock.second ≤ now.second }
        requires early { now.second ≤ 2 ^ 36 }
        requires view { IsView request.now }
        ensures { Shows (advance self.now.recorded now) account request.now result }
    {
        if let Err(failure) = check_members(self.alloc(), request) {
            return Err(failure);
        }
        let decision = match self.kept.decide(account, now, request) {
            Ok(decision) => decision,
            Err(Failure::Refused(refusal)) => return Err(Failure::Refused(refusal)),
            Err(Failure::Memory) => return Err(self.kept.undecided(account, now, request)),
        };
        match decision {
            Decision::View(answer) => Ok(answer),
            Decision::Read(row) => self.kept.read(now, request, row),
            _ => unreachable!(),
        }
    }

    /// Shows a snapshot, a volume, a rule or a policy, or a list of them, or lists a snapshot's blocks or what differs between two, at the moment of the
    /// store's clock and the reading, which is in seconds since 1970 in UTC. The disk isn't called, so the answer is never E17 or E18.
    pub fn view<D: Disk>(
        &mut self,
        disk: &D,
        account: Account,
        reading: Moment,
        request: &Request,
    ) -> Answer
        requires view { IsView request.now }
        requires fits { Fits S.sound (D.view disk.now) self.old }
        ensures fits { Fits S.sound (D.view disk.now) self.new }
        ensures told { Viewed self.old self.new account (at_reading self.old reading) request.now result }
        ensures memory { result ≡ Answer.Memory → MayRunOut (kept_call (advance self.old.recorded (at_reading self.old reading)) account request.now) }
        ensures step { IfSound S.sound (D.view disk.now) (Turn (D.view disk.now) (D.view disk.now) self.old self.new account reading request.now result) }
    {
        kept_form();
        let _ = disk;
        let now = self.moment(reading);
        match self.look(account, now, request) {
            Ok(answer) => {
                self.tick(now);
                answer
            }
            Err(failure) => self.fail(now, failure),
        }
    }

    /// All policies, in ascending account and then number. Time takes none.
    pub fn policies(&self) -> Result<Ids, AllocError>
        ensures { IfOk result (λ ids. ids ≡ list_map (λ (e : PolicyKey × Policy). any.Policy e.0) (fin.entries self.now.recorded.policies)) }
    {
        self.kept.policies()
    }
}

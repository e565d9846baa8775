// A store that answers messages.
ghost use Rattle.std.specs.Prelude.{◌≡◌, IfOk};
ghost use Rattle.ebs_recovery.specs.inner.Fits.{Fits};
ghost use Rattle.ebs_service.specs.inner.Served.{served_on};

use ebs_disk_store::{Promise, Store};
use ebs_http::Message;
use ebs_model::{Answer, Failure, Moment};
use ebs_rest::Routes;
use ebs_session::Responder;
use ebs_world::Disk;
use std::alloc::{AllocError, Global};
use std::marker::Model;

/// A store, and the table by which messages are read.
#[derive(Drop)]
pub struct Service<S: Promise> {
    routes: Routes,
    store: Store<S>,
}

impl<S: Promise> Model for Service<S> {
    ghost use Rattle.ebs_recovery.specs.inner.Fits.{Seen};
    ghost use Rattle.ebs_disk_store.specs.inner.Shown.{seen_code};

    ghost Value = { Seen };

    ghost coded = { seen_code };

    ghost view = { λ s. s.store };
}

impl<S: Promise> Service<S> {
    /// What answers messages by this store.
    pub fn new(alloc: Global, store: Store<S>) -> Result<Service<S>, AllocError>
        ensures { IfOk result (λ service. service ≡ store) }
    {
        Ok(Service {
            routes: Routes::new(alloc)?,
            store,
        })
    }
}

impl<S: Promise, D: Disk> Responder<D> for Service<S> {
    ghost replies = { served_on S.sound D.view };

    ghost ready = { λ store disk. Fits S.sound (D.view disk) store };

    /// The store's answer to the call that a message makes, the refusal of one that makes none, or want of memory.
    fn reply(&mut self, disk: &mut D, message: Message, reading: Moment) -> Answer {
        match self.routes.read_call(message) {
            Ok(call) => self.store.apply(disk, call.account, reading, call.request),
            Err(Failure::Refused(refusal)) => Answer::Refused(refusal),
            Err(Failure::Memory) => Answer::Memory,
        }
    }
}

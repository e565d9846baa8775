// What lies on the desk.
use crate::item::Item;
use ebs_disk_store::{Promise, Store};
use ebs_turns::Subject;
use ebs_world::Disk;

/// A store with its disk, and how many calls were answered.
#[derive(Drop)]
pub struct Shelf<A, D> {
    pub store: A,
    pub disk: D,
    pub entries: u64,
}

impl<S: Promise, D: Disk> Subject<Item<D>> for Shelf<Store<S>, D> {
    ghost use Rattle.ebs_desk.specs.Turns.{Follows};

    ghost follows = { Follows S.sound D.view };
}

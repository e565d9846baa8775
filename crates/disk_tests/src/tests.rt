mod disks;
mod helpers;
mod journal;
mod slots;
mod world;

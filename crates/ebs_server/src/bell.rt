// What wakes a collector.
use std::sync::{Condvar, Mutex, Wait};

/// What those who ring did.
#[derive(Drop)]
struct Ringing {
    is_rung: bool,
    /// How many haven't signed off.
    ringers: u32,
}

/// Wakes who collects. Those who serve ring it, and sign off at their end.
#[derive(Drop)]
pub struct Bell {
    ringing: Mutex<Ringing>,
    rung: Condvar,
}

impl Bell {
    pub fn new(ringers: u32) -> Bell {
        Bell {
            ringing: Mutex::new(Ringing {
                is_rung: false,
                ringers,
            }),
            rung: Condvar::new(),
        }
    }

    pub(crate) fn ring<R: Wait>(&self, rt: &R) {
        self.ringing.lock(rt).is_rung = true;
        self.rung.notify_one();
    }

    pub(crate) fn sign_off<R: Wait>(&self, rt: &R) {
        let mut ringing = self.ringing.lock(rt);
        ringing.ringers = ringing.ringers.saturating_sub(1);
        drop(ringing);
        self.rung.notify_one();
    }

    /// Waits until it was rung, or nobody is left to ring it. Whether somebody is left.
    pub(crate) fn wait<R: Wait>(&self, rt: &R) -> bool {
        let is_quiet = |ringing: &mut Ringing| !ringing.is_rung && ringing.ringers > 0;
        let mut ringing = self.rung.wait_while(rt, self.ringing.lock(rt), is_quiet);
        ringing.is_rung = false;
        ringing.ringers > 0
    }
}

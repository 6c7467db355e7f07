//! How the one who leads lets the other workers know.

use std::sync::{Condvar, Mutex, Wait};

/// Whether jobs are to be done, for those who wait to know it.
pub struct Signal {
    told: Mutex<Option<bool>>,
    changed: Condvar,
}

// By hand, so that it is proved once, here.
impl Drop for Signal {
    fn drop(self) {
        let Signal {
            told: _,
            changed: _,
        } = self;
    }
}

impl Signal {
    /// A signal that nobody has given yet. Takes no memory.
    pub fn new() -> Signal {
        Signal {
            told: Mutex::new(None),
            changed: Condvar::new(),
        }
    }

    /// Lets those who wait know. Takes no memory.
    pub fn give<R: Wait>(&self, rt: &R, is_wanted: bool) {
        *self.told.lock(rt) = Some(is_wanted);
        self.changed.notify_all();
    }

    /// Waits until the signal is given. Takes no memory.
    pub fn wait<R: Wait>(&self, rt: &R) -> bool {
        let told = self
            .changed
            .wait_while(rt, self.told.lock(rt), |told| told.is_none());
        matches!(*told, Some(true))
    }
}

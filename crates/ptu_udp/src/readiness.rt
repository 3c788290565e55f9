//! What is known of a socket without a call of the system.

use std::alloc::{AllocError, Global};
use std::sync::Arc;
use std::sync::atomic::{AtomicBool, Ordering};

/// What is known of a socket: whether its last receive found nothing, and whether a look at it has
/// said since that nothing came. The port that receives there and those that look share it.
#[derive(Drop)]
pub struct Readiness {
    empty: Arc<AtomicBool, Global>,
    quiet: Arc<AtomicBool, Global>,
}

impl Readiness {
    /// Of a socket at which a datagram may wait.
    ///
    /// # Errors
    /// Where memory is wanting.
    pub fn new(alloc: Global) -> Result<Readiness, AllocError> {
        Ok(Readiness {
            empty: Arc::new(alloc, AtomicBool::new(false))?,
            quiet: Arc::new(alloc, AtomicBool::new(false))?,
        })
    }

    /// The same readiness, for another port.
    ///
    /// # Errors
    /// Where it is shared too often.
    pub fn share(&self) -> Result<Readiness, AllocError> {
        Ok(Readiness {
            empty: self.empty.clone()?,
            quiet: self.quiet.clone()?,
        })
    }

    /// A receive found nothing, or took a datagram.
    pub fn note_receive(&self, empty: bool) {
        self.empty.store(empty, Ordering::SeqCst);
    }

    /// A look found that a datagram came, or that none did since the look before.
    pub(crate) fn note_look(&self, came: bool) {
        if came {
            self.empty.store(false, Ordering::SeqCst);
        }
        self.quiet.store(!came && self.is_empty(), Ordering::SeqCst);
    }

    /// Whether the last receive found nothing, and nothing came since that a look has seen.
    pub(crate) fn is_empty(&self) -> bool {
        self.empty.load(Ordering::SeqCst)
    }

    /// Whether the next receive need not ask the system, since the last look found nothing. That
    /// counts for one receive: the one after it asks.
    pub(crate) fn take_quiet(&self) -> bool {
        self.quiet.swap(false, Ordering::SeqCst)
    }
}

//! A host in memory whose ports may be of any type, for tests.

ghost use Rattle.std.specs.Prelude.{◌≡◌, Some, None};
ghost use Rattle.ptu_outside.specs.Telling.{IfTold};

use crate::failed::Failed;
use crate::host::Host;
use crate::mem_clock::MemClock;
use crate::opened::Opened;
use crate::port::Port;

/// A host that opens these ports and clocks once, and keeps what it is given back. It has no
/// control port, and does not say where it opened.
#[derive(Drop)]
pub struct OnceHost<P: Drop> {
    /// What it will open.
    pub opened: Option<Opened<P, MemClock>>,
    /// What it was given back last.
    pub back: Option<Opened<P, MemClock>>,
    faults: u64,
}

impl<P: Drop> OnceHost<P> {
    /// A host that will open these.
    pub fn new(opened: Opened<P, MemClock>) -> OnceHost<P>
        ensures opened { result.opened ≡ Some opened }
        ensures back { result.back ≡ None }
    {
        OnceHost {
            opened: Some(opened),
            back: None,
            faults: 0,
        }
    }
}

impl<P: Port + Send> Host for OnceHost<P> {
    type P = P;

    type C = MemClock;

    ghost opening = { λ h. h.opened };

    ghost back = { λ h. h.back };

    ghost opened_at = { λ _. None };

    ghost control = { λ _. None };

    ghost control_back = { λ _. None };

    ghost control_at = { λ _. None };

    ghost faults = { λ h. h.faults };

    fn open(
        &mut self,
        _ip: u32,
        _event_port: u16,
        _general_port: u16,
    ) -> Result<Opened<P, MemClock>, Failed> {
        let opened = self.opened.take();
        if opened.is_none() {
            self.faults = self.faults.saturating_add(1);
        }
        opened.ok_or(Failed)
    }

    fn close(&mut self, opened: Opened<P, MemClock>)
        ensures back { IfTold self.new.back (Some opened) }
        ensures given { self.new ≡ record self.old { back = Some opened } }
        ensures quiet { self.new.faults ≡ self.old.faults }
    {
        self.back = Some(opened);
    }

    fn open_control(&mut self, _number: u16) -> Result<P, Failed> {
        self.faults = self.faults.saturating_add(1);
        Err(Failed)
    }

    fn close_control(&mut self, port: P)
        ensures back { self.new.back ≡ self.old.back }
        ensures same { self.new ≡ self.old }
        ensures quiet { self.new.faults ≡ self.old.faults }
    {
        let _ = port;
    }
}

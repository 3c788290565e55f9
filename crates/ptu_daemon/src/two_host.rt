//! A host whose ports send each Sync in two steps, over another host.

ghost use Rattle.std.specs.Prelude.{◌≡◌, false, Some, option_map, IfOk, IfSome, OnOk, OnErr};
ghost use Rattle.ptu_outside.specs.{Faults.{HasRisen, HasNotFallen}, Telling.{IfTold}};
ghost use Rattle.ptu_daemon.specs.Hosts.{GivesBackBelow, clear, flagged_by, over};

use crate::two_step::TwoStep;
use ptu_outside::{Failed, Host, Opened};

/// The flags of six ports in two steps.
#[derive(Clone, Copy, Default, PartialEq, Eq)]
pub struct Flags {
    pub p0: bool,
    pub p1: bool,
    pub p2: bool,
    pub p3: bool,
    pub p4: bool,
    pub p5: bool,
}

/// A host whose ports send each Sync in two steps, over another host. It keeps the flags of the
/// ports that it was given back last, and that of its control port, which are clear before.
#[derive(Drop)]
pub struct TwoHost<'a, H: Host> {
    host: &'a mut H,
    flags: Flags,
    is_control_flagged: bool,
}

impl<'a, H: Host> TwoHost<'a, H> {
    /// A host over this one.
    pub fn new(host: &'a mut H) -> TwoHost<'a, H>
        ensures same { result.host.ghost_name ≡ host.entry.ghost_name }
        ensures host { result.host.now ≡ host.old }
        ensures flags { result.flags ≡ clear }
        ensures control { result.is_control_flagged ≡ false }
    {
        TwoHost {
            host,
            flags: Flags::default(),
            is_control_flagged: false,
        }
    }

    /// The flags of the ports that it was given back last, which are clear before.
    pub fn flags(&self) -> Flags
        ensures { result ≡ self.now.flags }
    {
        self.flags
    }
}

impl<H: Host> Host for TwoHost<'_, H> {
    type P = TwoStep<H::P>;

    type C = H::C;

    ghost opening = { λ h. option_map (flagged_by clear) (H.opening h.host.now) };

    ghost back = { λ h. option_map (flagged_by h.flags) (H.back h.host.now) };

    ghost opened_at = { λ h. H.opened_at h.host.now };

    ghost control = { λ h. option_map (over false) (H.control h.host.now) };

    ghost control_back = { λ h. option_map (over h.is_control_flagged)
        (H.control_back h.host.now) };

    ghost control_at = { λ h. H.control_at h.host.now };

    ghost faults = { λ h. H.faults h.host.now };

    ghost name = { λ h. h.host.ghost_name };

    fn open(
        &mut self,
        ip: u32,
        event_port: u16,
        general_port: u16,
    ) -> Result<Opened<TwoStep<H::P>, H::C>, Failed>
        ensures opened { IfOk result (λ ports.
            IfSome (option_map (flagged_by clear) (H.opening self.old.host.now))
            (λ told. ports ≡ told)) }
        ensures at { OnOk result (IfTold (H.opened_at self.new.host.now) (Some (record {
          ip = ip;
          event_port = event_port;
          general_port = general_port;
        }))) }
        ensures risen { OnErr result
            (HasRisen (H.faults self.old.host.now) (H.faults self.new.host.now)) }
        ensures quiet { OnOk result (H.faults self.new.host.now ≡ H.faults self.old.host.now) }
        ensures no_fall { HasNotFallen (H.faults self.old.host.now) (H.faults self.new.host.now) }
        ensures control { option_map (over false) (H.control self.new.host.now)
            ≡ option_map (over false) (H.control self.old.host.now) }
        ensures control_at { H.control_at self.new.host.now ≡ H.control_at self.old.host.now }
        ensures name { self.new.host.ghost_name ≡ self.old.host.ghost_name }
    {
        let below = self.host.open(ip, event_port, general_port)?;
        Ok(Opened {
            p0: TwoStep::new(below.p0),
            p1: TwoStep::new(below.p1),
            p2: TwoStep::new(below.p2),
            p3: TwoStep::new(below.p3),
            p4: TwoStep::new(below.p4),
            p5: TwoStep::new(below.p5),
            c0: below.c0,
            c1: below.c1,
            c2: below.c2,
            c3: below.c3,
            c4: below.c4,
            c5: below.c5,
        })
    }

    fn close(&mut self, opened: Opened<TwoStep<H::P>, H::C>)
        ensures back { IfTold
            (option_map (flagged_by self.new.flags) (H.back self.new.host.now)) (Some opened) }
        ensures at { H.opened_at self.new.host.now ≡ H.opened_at self.old.host.now }
        ensures control_back { option_map (over self.new.is_control_flagged)
            (H.control_back self.new.host.now) ≡ option_map (over self.old.is_control_flagged)
            (H.control_back self.old.host.now) }
        ensures control_at { H.control_at self.new.host.now ≡ H.control_at self.old.host.now }
        ensures quiet { H.faults self.new.host.now ≡ H.faults self.old.host.now }
        ensures name { self.new.host.ghost_name ≡ self.old.host.ghost_name }
        // It keeps the flags, and gives the ports below back.
        ensures below { GivesBackBelow self.new.flags opened (H.back self.new.host.now) }
    {
        self.flags = Flags {
            p0: opened.p0.is_flagged(),
            p1: opened.p1.is_flagged(),
            p2: opened.p2.is_flagged(),
            p3: opened.p3.is_flagged(),
            p4: opened.p4.is_flagged(),
            p5: opened.p5.is_flagged(),
        };
        self.host.close(Opened {
            p0: opened.p0.into_inner(),
            p1: opened.p1.into_inner(),
            p2: opened.p2.into_inner(),
            p3: opened.p3.into_inner(),
            p4: opened.p4.into_inner(),
            p5: opened.p5.into_inner(),
            c0: opened.c0,
            c1: opened.c1,
            c2: opened.c2,
            c3: opened.c3,
            c4: opened.c4,
            c5: opened.c5,
        });
    }

    fn open_control(&mut self, number: u16) -> Result<TwoStep<H::P>, Failed>
        ensures opened { IfOk result (λ port.
            IfSome (option_map (over false) (H.control self.old.host.now))
            (λ told. port ≡ told)) }
        ensures control_at { OnOk result
            (IfTold (H.control_at self.new.host.now) (Some number)) }
        ensures back { option_map (flagged_by self.new.flags) (H.back self.new.host.now)
            ≡ option_map (flagged_by self.old.flags) (H.back self.old.host.now) }
        ensures at { H.opened_at self.new.host.now ≡ H.opened_at self.old.host.now }
        ensures risen { OnErr result
            (HasRisen (H.faults self.old.host.now) (H.faults self.new.host.now)) }
        ensures quiet { OnOk result (H.faults self.new.host.now ≡ H.faults self.old.host.now) }
        ensures no_fall { HasNotFallen (H.faults self.old.host.now) (H.faults self.new.host.now) }
        ensures name { self.new.host.ghost_name ≡ self.old.host.ghost_name }
    {
        Ok(TwoStep::new(self.host.open_control(number)?))
    }

    fn close_control(&mut self, port: TwoStep<H::P>)
        ensures control_back { IfTold (option_map (over self.new.is_control_flagged)
            (H.control_back self.new.host.now)) (Some port) }
        ensures control_at { H.control_at self.new.host.now ≡ H.control_at self.old.host.now }
        ensures back { option_map (flagged_by self.new.flags) (H.back self.new.host.now)
            ≡ option_map (flagged_by self.old.flags) (H.back self.old.host.now) }
        ensures at { H.opened_at self.new.host.now ≡ H.opened_at self.old.host.now }
        ensures quiet { H.faults self.new.host.now ≡ H.faults self.old.host.now }
        ensures name { self.new.host.ghost_name ≡ self.old.host.ghost_name }
    {
        self.is_control_flagged = port.is_flagged();
        self.host.close_control(port.into_inner());
    }
}

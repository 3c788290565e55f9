//! The trait of what opens the six ports and the clocks of a node, and takes them back.

ghost use Rattle.std.specs.Prelude.{◌≡◌, ℕ, Option, Some, IfOk, OnOk, OnErr, IfSome};
ghost use Rattle.ptu_outside.specs.declared.opened.Opened.{Opened};
ghost use Rattle.ptu_outside.specs.declared.endpoint.Endpoint.{Endpoint};
ghost use Rattle.ptu_outside.specs.{Faults.{HasRisen, HasNotFallen}, Telling.{IfTold}};

use crate::clock::Clock;
use crate::failed::Failed;
use crate::opened::Opened;
use crate::port::Port;

/// The IPv4 address by which a machine speaks to itself, 127.0.0.1.
pub const LOOPBACK: u32 = 0x7f00_0001;

/// Where ports and clocks are opened and given back.
pub trait Host {
    type P: Port + Send;

    type C: Clock + Send;

    /// The ports and clocks that it will open, if they are observable.
    ghost opening: { Self → Option (Opened Self.P Self.C) };

    /// The ports and clocks that it was given back last, if there were any and they are observable.
    ghost back: { Self → Option (Opened Self.P Self.C) };

    /// The address and the UDP port numbers at which it opened last, if it did and they are
    /// observable.
    ghost opened_at: { Self → Option Endpoint };

    /// The control port that it will open, where it tells it.
    ghost control: { Self → Option Self.P };

    /// The control port that it was given back last, where there was one and it tells it.
    ghost control_back: { Self → Option Self.P };

    /// The UDP port number at which it opened a control port last, where it did and it tells it.
    ghost control_at: { Self → Option ℕ };

    /// How many faults there have been.
    ghost faults: { Self → ℕ };

    /// The name of the reference that it holds to what it stands on, where it holds one.
    ghost name: { Self → ℕ } = { λ _. 0 };

    /// Opens six ports and six clocks at this IPv4 address (its first octet the highest). Port 4
    /// receives at the UDP port number of the general channel, port 5 at that of the event channel.
    fn open(
        &mut self,
        ip: u32,
        event_port: u16,
        general_port: u16,
    ) -> Result<Opened<Self::P, Self::C>, Failed>
        ensures opened { IfOk result (λ ports. IfSome (opening self.old) (λ told. ports ≡ told)) }
        ensures at { OnOk result (IfTold (opened_at self.new) (Some (record {
          ip = ip;
          event_port = event_port;
          general_port = general_port;
        }))) }
        ensures risen { OnErr result (HasRisen (faults self.old) (faults self.new)) }
        ensures quiet { OnOk result (faults self.new ≡ faults self.old) }
        ensures no_fall { HasNotFallen (faults self.old) (faults self.new) }
        ensures control { control self.new ≡ control self.old }
        ensures control_at { control_at self.new ≡ control_at self.old }
        ensures name { name self.new ≡ name self.old };

    /// Takes ports and clocks back.
    fn close(&mut self, opened: Opened<Self::P, Self::C>)
        ensures back { IfTold (back self.new) (Some opened) }
        ensures at { opened_at self.new ≡ opened_at self.old }
        ensures control_back { control_back self.new ≡ control_back self.old }
        ensures control_at { control_at self.new ≡ control_at self.old }
        ensures quiet { faults self.new ≡ faults self.old }
        ensures name { name self.new ≡ name self.old };

    /// Opens one port more, by which a running node is spoken to from its own machine. It receives
    /// at 127.0.0.1 and this UDP port number, and what it sends to 127.0.0.1 on the general channel
    /// goes to the next number. The ports and clocks of `open` stay as they are.
    fn open_control(&mut self, number: u16) -> Result<Self::P, Failed>
        ensures opened { IfOk result (λ port. IfSome (control self.old) (λ told. port ≡ told)) }
        ensures control_at { OnOk result (IfTold (control_at self.new) (Some number)) }
        ensures back { back self.new ≡ back self.old }
        ensures at { opened_at self.new ≡ opened_at self.old }
        ensures risen { OnErr result (HasRisen (faults self.old) (faults self.new)) }
        ensures quiet { OnOk result (faults self.new ≡ faults self.old) }
        ensures no_fall { HasNotFallen (faults self.old) (faults self.new) }
        ensures name { name self.new ≡ name self.old };

    /// Takes the control port back.
    fn close_control(&mut self, port: Self::P)
        ensures control_back { IfTold (control_back self.new) (Some port) }
        ensures control_at { control_at self.new ≡ control_at self.old }
        ensures back { back self.new ≡ back self.old }
        ensures at { opened_at self.new ≡ opened_at self.old }
        ensures quiet { faults self.new ≡ faults self.old }
        ensures name { name self.new ≡ name self.old };
}

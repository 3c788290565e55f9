//! The names of all settings, in the order in which they are tested.

ghost use Rattle.std.specs.Prelude.{◌≡◌};
ghost use Rattle.ptu_config.specs.Key.{name_of};

/// A setting, in the order in which the settings are tested: those of both nodes first, then those
/// of a grandmaster, then those of a slave.
#[derive(Clone, Copy, Debug, PartialEq, Eq, PartialOrd, Ord)]
pub enum Key {
    Ip,
    EventPort,
    GeneralPort,
    Clock,
    Port,
    Domain,
    Rounds,
    Repeat,
    Class,
    Capacity,
    MaxDuration,
    Epoch,
    Senders,
    ChangeRound,
    NewCapacity,
    TwoStep,
    ControlPort,
    ControlKey,
    WaitToRestore,
    AnnounceTimeout,
    SyncTimeout,
    DelayTimeout,
    LogAnnounce,
    LogSync,
    LogDelay,
    Duration,
    Masters,
}

impl Key {
    /// The setting's name, as a document writes it.
    pub fn name(self) -> &'static str
        ensures { result.now ≡ name_of self }
    {
        match self {
            Key::Ip => "ip",
            Key::EventPort => "event_port",
            Key::GeneralPort => "general_port",
            Key::Clock => "clock",
            Key::Port => "port",
            Key::Domain => "domain",
            Key::Rounds => "rounds",
            Key::Repeat => "repeat",
            Key::Class => "class",
            Key::Capacity => "capacity",
            Key::MaxDuration => "max_duration",
            Key::Epoch => "epoch",
            Key::Senders => "senders",
            Key::ChangeRound => "change_round",
            Key::NewCapacity => "new_capacity",
            Key::TwoStep => "two_step",
            Key::ControlPort => "control_port",
            Key::ControlKey => "control_key",
            Key::WaitToRestore => "wait_to_restore",
            Key::AnnounceTimeout => "announce_timeout",
            Key::SyncTimeout => "sync_timeout",
            Key::DelayTimeout => "delay_timeout",
            Key::LogAnnounce => "log_announce",
            Key::LogSync => "log_sync",
            Key::LogDelay => "log_delay",
            Key::Duration => "duration",
            Key::Masters => "masters",
        }
    }
}

//! The outside of a daemon over the system: UDP over IPv4 (IEEE 1588-2019 annex C), and the
//! system's clock. What was sent or received is opaque to contracts; faults are counted.
#![tactic(auto)]

mod calls;
mod lookout;
mod readiness;
mod socket;
mod sys_clock;
mod udp_host;
mod udp_port;
mod watch;

pub use lookout::{Came, Lookout, Polled};
pub use readiness::Readiness;
pub use socket::Socket;
pub use sys_clock::SysClock;
pub use udp_host::UdpHost;
pub use udp_port::{Numbers, UdpPort};
pub use watch::Watch;

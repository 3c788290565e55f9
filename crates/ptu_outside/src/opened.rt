//! The ports and clocks of a node as a host opens them.

/// The ports and clocks of a node. Ports 0 to 3 only send, port 4 receives the general channel and
/// sends what answers it, and port 5 receives the event channel.
#[derive(Drop)]
pub struct Opened<P, C> {
    pub p0: P,
    pub p1: P,
    pub p2: P,
    pub p3: P,
    pub p4: P,
    pub p5: P,
    pub c0: C,
    pub c1: C,
    pub c2: C,
    pub c3: C,
    pub c4: C,
    pub c5: C,
}

//! What became of the reply to a datagram: sent, failed, or none was due.

/// What became of the reply to a datagram.
#[derive(Clone, Copy)]
pub enum Reply {
    /// It was sent.
    Sent,
    /// The port counted a fault. What was decided stands.
    Failed,
    /// There was nothing to answer.
    Nothing,
}

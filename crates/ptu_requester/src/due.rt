//! The kinds of message that a slave has to ask for at a moment.

/// The kinds for which a master is to be asked.
#[derive(Clone, Copy, Debug, PartialEq, Eq)]
pub struct Due {
    pub announce: bool,
    pub sync: bool,
    /// Never set where Delay_Resp is not requested.
    pub delay: bool,
}

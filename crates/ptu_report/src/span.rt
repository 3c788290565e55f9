//! Where a text stands in the octets of many.

/// Where a text stands among octets: from a place up to another.
#[derive(Clone, Copy)]
pub(crate) struct Span {
    pub start: usize,
    pub end: usize,
}

//! The trait by which a caller borrows the port of a slave. A clause can name what a slave is after
//! the loan in a trait alone.

ghost use Rattle.std.specs.{Borrow.{Lends, sem}, Prelude.{◌≡◌}};

/// What has a port. A clause names the type of what is lent from, boxed judges and all, only in a
/// trait, so the loan stands in one.
pub trait HasPort<P> {
    /// The port.
    ghost port_of: { Self → P };

    /// The value with another port, and all else as it is.
    ghost with_port: { Self → P → Self };

    /// The port. All else is as before once the loan ends.
    fn port(&mut self) -> &mut P
        ensures* lends { sem 𝓛 (Lends Self.row P.row self.entry result (with_port self.old)) }
        ensures value { result.now ≡ port_of self.old };
}

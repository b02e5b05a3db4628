//! What the program says of where it comes from.

/// What `--version` says behind the program's name. This text claims nothing but the number: a proof of this source doesn't know whether it
/// goes through. `build` makes the program of a copy of this file in which it has written what it knows by then: the kit, whether all was
/// proved, and the sum of the sources.
pub const VERSION: &str = "1.0, not made by build: whether it was proved isn't known";

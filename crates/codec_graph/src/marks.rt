//! Marks by node identifier.
ghost use Rattle.std.specs.Prelude.{◌≡◌, false, replicate};

/// A mark for each node identifier that a connection list can name.
pub(crate) type Marks = [bool; 256];

/// Marks no node.
pub(crate) fn no_marks() -> Marks
    ensures { result ≡ replicate 256 false }
{
    [false; 256]
}

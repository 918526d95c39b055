//! Conditions, put together.
ghost use Rattle.std.specs.Prelude.{◌≡◌, ◌&&◌, ◌||◌, not};

/// Whether both hold.
pub(crate) fn both(first: bool, second: bool) -> bool
    ensures { result ≡ (first && second) }
{
    first && second
}

/// Whether one of three holds.
pub(crate) fn any(first: bool, second: bool, third: bool) -> bool
    ensures { result ≡ (first || second || third) }
{
    first || second || third
}

/// Whether a bit rose.
pub(crate) fn rose(old: bool, new: bool) -> bool
    ensures { result ≡ (not old && new) }
{
    !old && new
}

/// Whether a bit fell.
pub(crate) fn fell(old: bool, new: bool) -> bool
    ensures { result ≡ (old && not new) }
{
    old && !new
}

//! The exit statuses of lines, one after the other.

ghost use Rattle.std.specs.Prelude.{◌≡◌};
ghost use Rattle.ftd_script.specs.Statuses.{greater, is_last};

/// The greater status.
pub fn greater(status: u8, other: u8) -> u8
    ensures { result ≡ greater status other }
{
    if status < other { other } else { status }
}

/// Whether a script ends after a line, where this is the greatest status so far.
pub fn is_last(has_stop: bool, status: u8) -> bool
    ensures { result ≡ is_last has_stop status }
{
    status == 3 || (has_stop && status != 0)
}

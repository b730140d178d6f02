//! The parts of a target.

ghost use Rattle.std.specs.Prelude.{◌≡◌, MatchOption, length};
ghost use Rattle.std.specs.List.{before_first, after_first, position_or_len};
ghost use Rattle.ftd_http.specs.Paths.{part, is_slash};

/// The part of this number, from 0, between the slashes.
pub fn part(target: &str, number: usize) -> &str
    ensures { result.now ≡ part number target.now }
{
    match cut(target) {
        None => { if number == 0 { target } else { "" } }
        Some((before, after)) => {
            if number == 0 {
                before
            } else {
                part(after, number - 1)
            }
        }
    }
}

/// A text before its first slash and after it.
fn cut(text: &str) -> Option<(&str, &str)>
    ensures { MatchOption result
        (position_or_len is_slash text.now ≡ length text.now)
        (λ cut. (cut.0.now ≡ before_first is_slash text.now)
        × (cut.1.now ≡ after_first is_slash text.now)) }
{
    text.split_once('/')
}

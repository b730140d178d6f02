//! The fields of a head.

ghost use Rattle.std.specs.Prelude.{◌≡◌, ◌<◌, ◌≤◌, ◌∷◌, [], length, map, All, MatchOption, IfSome};
ghost use Rattle.std.specs.List.{list_all, position};
ghost use Rattle.std.specs.Str.{bytes_eq};
ghost use Rattle.httparse.specs.Spans.{header_bytes, IsHeaderWithin};
ghost use Rattle.ftd_http.specs.Fields.{has_listed, is_between, is_word, lists, values_of};

use httparse::spans::HeaderSpan;

/// Whether a text is this word, without regard to ASCII case.
#[tactic(auto, unfolding(crate::specs::Fields::is_word))]
pub fn is_word(word: &[u8], text: &[u8]) -> bool
    ensures { result ≡ is_word word.now text.now }
{
    word.eq_ignore_ascii_case(text)
}

/// The value of the first field of this name, and the fields after it.
pub fn find<'a, 'b>(
    buf: &'a [u8],
    headers: &'b [HeaderSpan],
    name: &[u8],
) -> Option<(&'a [u8], &'b [HeaderSpan])>
    requires { All (IsHeaderWithin (length buf.now)) headers.now }
    ensures found { MatchOption result
        (values_of name.now (map (header_bytes buf.now) headers.now) ≡ [])
        (λ r. values_of name.now (map (header_bytes buf.now) headers.now)
        ≡ r.0.now ∷ values_of name.now (map (header_bytes buf.now) r.1.now)) }
    ensures within { IfSome result (λ r. All (IsHeaderWithin (length buf.now)) r.1.now) }
    ensures shorter { IfSome result (λ r. length r.1.now < length headers.now) }
{
    let mut rest = headers;
    while let Some((header, others)) = rest.split_first() {
        if is_word(name, header.name.of(buf)) {
            return Some((header.value.of(buf), others));
        }
        rest = others;
    }
    None
}

/// Whether each field of this name has this value.
pub fn are_all(buf: &[u8], headers: &[HeaderSpan], name: &[u8], value: &[u8]) -> bool
    requires { All (IsHeaderWithin (length buf.now)) headers.now }
    ensures { result ≡ list_all (bytes_eq value.now)
        (values_of name.now (map (header_bytes buf.now) headers.now)) }
{
    let mut rest = headers;
    while let Some((other, after)) = find(buf, rest, name) {
        if value != other {
            return false;
        }
        rest = after;
    }
    true
}

/// Whether a byte stands between the words of a list: a comma, a space or a tab.
fn is_between(byte: u8) -> bool
    ensures { result ≡ is_between byte }
{
    matches!(byte, b',' | b' ' | b'\t')
}

/// The place of the first byte of a list that stands between words, if there is one.
fn separator_in(list: &[u8]) -> Option<usize>
    ensures value { result ≡ position is_between list.now }
    ensures bound { IfSome result (λ place. place < length list.now) }
{
    list.iter().position(|byte| is_between(*byte))
}

/// Whether a list has this word, without regard to ASCII case.
fn lists(word: &[u8], list: &[u8]) -> bool
    ensures { result ≡ lists word.now list.now }
{
    let mut rest = list;
    'words: loop {
        let Some(end) = separator_in(rest) else {
            return is_word(word, rest);
        };
        let (first, behind) = rest.split_at(end);
        if is_word(word, first) {
            return true;
        }
        rest = &behind[1..];
    }
}

/// Whether a field of this name, a list of words, has this one, without regard to ASCII case.
pub fn has_listed(buf: &[u8], headers: &[HeaderSpan], name: &[u8], word: &[u8]) -> bool
    requires { All (IsHeaderWithin (length buf.now)) headers.now }
    ensures { result ≡ has_listed name.now word.now (map (header_bytes buf.now) headers.now) }
{
    let mut rest = headers;
    while let Some((list, after)) = find(buf, rest, name) {
        if lists(word, list) {
            return true;
        }
        rest = after;
    }
    false
}

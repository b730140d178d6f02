//! Where a message comes from.

ghost use Rattle.std.specs.Prelude.{◌≡◌, length, map, drop, take, false, true, codes, All};
ghost use Rattle.std.specs.Prelude.{MatchOption, option_map};
ghost use Rattle.std.specs.Char.{is_ascii_digit};
ghost use Rattle.std.specs.List.{list_all};
ghost use Rattle.httparse.specs.Spans.{header_bytes, IsHeaderWithin};
ghost use Rattle.ftd_http.specs.Fields.{is_word, values_of};
ghost use Rattle.ftd_http.specs.Origins.{hosts_in, is_word_then, is_port, is_local_host};
ghost use Rattle.ftd_http.specs.Origins.{is_own_origin, is_own_site, origin_fault};

use crate::Status;
use crate::fields::{find, is_word};
use httparse::spans::HeaderSpan;

/// The fault of a head by where it comes from: it has two fields Host, or is not local.
#[tactic(auto, unfolding(crate::specs::Origins::origin_fault))]
pub fn origin_fault(buf: &[u8], headers: &[HeaderSpan]) -> Option<Status>
    requires { All (IsHeaderWithin (length buf.now)) headers.now }
    ensures { result ≡ origin_fault (map (header_bytes buf.now) headers.now) }
{
    let mut own = None;
    if let Some((host, others)) = find(buf, headers, b"host") {
        if find(buf, others, b"host").is_some() {
            return Some(Status::BadRequest);
        }
        if !is_local_host(host) {
            return Some(Status::Forbidden);
        }
        own = Some(host);
    }
    if are_own_origins(buf, headers, own) && are_own_sites(buf, headers) {
        None
    } else {
        Some(Status::Forbidden)
    }
}

/// Whether each field Origin has the origin of the pages of this host.
fn are_own_origins(buf: &[u8], headers: &[HeaderSpan], host: Option<&[u8]>) -> bool
    requires { All (IsHeaderWithin (length buf.now)) headers.now }
    ensures { result ≡ list_all (is_own_origin (hosts_in (option_map (λ it. it.now) host.entry)))
        (values_of (codes "origin") (map (header_bytes buf.now) headers.now)) }
{
    let mut rest = headers;
    while let Some((origin, after)) = find(buf, rest, b"origin") {
        if !is_own_origin(host, origin) {
            return false;
        }
        rest = after;
    }
    true
}

/// Whether no field Sec-Fetch-Site tells of another page.
fn are_own_sites(buf: &[u8], headers: &[HeaderSpan]) -> bool
    requires { All (IsHeaderWithin (length buf.now)) headers.now }
    ensures { result ≡ list_all is_own_site
        (values_of (codes "sec-fetch-site") (map (header_bytes buf.now) headers.now)) }
{
    let mut rest = headers;
    while let Some((site, after)) = find(buf, rest, b"sec-fetch-site") {
        if !is_own_site(site) {
            return false;
        }
        rest = after;
    }
    true
}

/// Whether the text is the origin of the pages of this host.
fn is_own_origin(host: Option<&[u8]>, origin: &[u8]) -> bool
    ensures { result
        ≡ is_own_origin (hosts_in (option_map (λ it. it.now) host.entry)) origin.now }
{
    let Some(host) = host else {
        return false;
    };
    match after_word(b"http://", origin) {
        Some(named) => is_word(host, named),
        None => false,
    }
}

/// Whether Sec-Fetch-Site says that no other page asks.
fn is_own_site(site: &[u8]) -> bool
    ensures { result ≡ is_own_site site.now }
{
    is_word(b"same-origin", site) || is_word(b"none", site)
}

/// Whether the text is a host of this machine.
fn is_local_host(host: &[u8]) -> bool
    ensures { result ≡ is_local_host host.now }
{
    is_host(b"127.0.0.1", host) || is_host(b"localhost", host) || is_host(b"[::1]", host)
}

/// Whether the text is this name, at any port.
fn is_host(name: &[u8], host: &[u8]) -> bool
    ensures { result ≡ is_word_then name.now is_port host.now }
{
    match after_word(name, host) {
        Some(port) => is_port(port),
        None => false,
    }
}

/// Whether the text is empty, or `:` and the digits of a port.
fn is_port(text: &[u8]) -> bool
    ensures { result ≡ is_port text.now }
{
    match text.split_first() {
        Some((mark, digits)) => *mark == b':' && are_digits(digits),
        None => true,
    }
}

/// Whether each byte is a digit.
fn are_digits(bytes: &[u8]) -> bool
    ensures { result ≡ list_all is_ascii_digit bytes.now }
{
    bytes.iter().all(|byte| byte.is_ascii_digit())
}

/// What comes after this word, without regard to ASCII case, where the text begins with it.
fn after_word<'a>(word: &[u8], text: &'a [u8]) -> Option<&'a [u8]>
    ensures { MatchOption result (is_word word.now (take (length word.now) text.now) ≡ false)
        (λ rest. (is_word word.now (take (length word.now) text.now) ≡ true)
        × (rest.now ≡ drop (length word.now) text.now)) }
{
    let (front, rest) = text.split_at(word.len().min(text.len()));
    if is_word(word, front) {
        Some(rest)
    } else {
        None
    }
}

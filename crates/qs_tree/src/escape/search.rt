//! Searches for the first byte of a class.

mod class;
mod classes;
mod encoded;
mod escapes;

ghost use Rattle.std.specs.Prelude.{◌≡◌, ◌<◌, length, take, position, IfSome, IsTrue, is_some, false};
ghost use Rattle.std.specs.List.{position_or_len};
ghost use Rattle.qs_spec.specs.Escape.{has_escape};
ghost use Rattle.qs_tree.specs.escape.Classes.{is_escape, is_ampersand, is_encoded};

pub(crate) use self::class::{Class, LANES, count, run};
pub(crate) use self::classes::{CLASSES, CLOSE, ESCAPE, OPEN, SEPARATOR, is_ordinary};
use self::encoded::Encoded;
pub(crate) use self::encoded::Escaped;
pub(crate) use self::escapes::Byte;
use self::escapes::Escape;

/// Returns the index of the first `+` or `%`, or `None`.
///
/// Doesn't allocate. Tests 32 bytes at a time, each once.
///
/// ```
/// find_escape(b"a+b") // Some(1)
/// ```
#[tactic(auto, using(crate::proofs::lemmas::escape::FirstPlace::is_found))]
pub fn find_escape(bytes: &[u8]) -> Option<usize>
    ensures first { result ≡ position is_escape bytes.now }
    ensures within { IfSome result (λ at. at < length bytes.now) }
    ensures found { is_some result ≡ has_escape bytes.now }
{
    find_first(Escape, bytes)
}

/// Returns the index of the first `&`, or `None`.
///
/// This is how the parser finds the end of a value, so it tests for `+` and `%` too. Doesn't allocate. Tests 32 bytes at a time, each
/// once.
///
/// ```
/// find_ampersand(b"a=1&b=2") // Some(3)
/// ```
pub fn find_ampersand(bytes: &[u8]) -> Option<usize>
    ensures first { result ≡ position is_ampersand bytes.now }
    ensures within { IfSome result (λ at. at < length bytes.now) }
{
    let (end, _) = find_value_end(bytes);
    if end < bytes.len() { Some(end) } else { None }
}

/// Returns the index of the first `&`, or the length, and whether it is known that no `+` or `%` is before it.
#[tactic(auto, using(crate::proofs::lemmas::escape::FirstPlace::none_in_front))]
pub(crate) fn find_value_end(bytes: &[u8]) -> (usize, bool)
    ensures first { result.0 ≡ position_or_len is_ampersand bytes.now }
    ensures has_no_escape { IsTrue result.1 → has_escape (take result.0 bytes.now) ≡ false }
{
    let mut at = 0;
    let mut has_no_escape = true;
    while bytes.len() - at >= LANES {
        let end = run(Byte(b'&'), bytes, at);
        if run(Escape, bytes, at) < end {
            has_no_escape = false;
        }
        if end < LANES {
            return (at + end, has_no_escape);
        }
        at += LANES;
    }
    while at < bytes.len() {
        let byte = bytes[at];
        if !is_ordinary(byte) {
            if byte == b'&' {
                break;
            }
            if Escape.has(byte) {
                has_no_escape = false;
            }
        }
        at += 1;
    }
    (at, has_no_escape)
}

/// Returns the index of the first byte that [`encode`](crate::encode) changes in form encoding (`is_form`) or query encoding, or `None`.
/// Both encodings change a space. If there are 32 bytes or more, `encode` copies those before the index at once, in multiples of 32.
///
/// Doesn't allocate. Tests 32 bytes at a time, each once.
///
/// ```
/// find_encoded(b"a b", false) // Some(1)
/// ```
pub fn find_encoded(bytes: &[u8], is_form: bool) -> Option<usize>
    ensures first { result ≡ position (is_encoded is_form) bytes.now }
    ensures within { IfSome result (λ at. at < length bytes.now) }
{
    find_first(Encoded { is_form }, bytes)
}

// Returns the index of the first byte of a class, or `None`. Tests 32 bytes at a time, and the rest one by one.
fn find_first<C: Class>(class: C, bytes: &[u8]) -> Option<usize>
    ensures first { result ≡ position (C.contains class) bytes.now }
    ensures within { IfSome result (λ at. at < length bytes.now) }
{
    let mut at = 0;
    while bytes.len() - at >= LANES {
        let run = run(class, bytes, at);
        if run < LANES {
            return Some(at + run);
        }
        at += LANES;
    }
    while at < bytes.len() {
        if class.has(bytes[at]) {
            return Some(at);
        }
        at += 1;
    }
    None
}

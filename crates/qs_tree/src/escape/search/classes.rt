//! The classes of bytes that a parser looks for: delimiters, brackets, `+` and `%`. All others are ordinary.

ghost use Rattle.std.specs.Prelude.{◌≡◌, ◌==◌, ◌||◌, false, not, IsTrue};
ghost use Rattle.qs_tree.specs.escape.Classes.{is_ampersand, is_escape};

/// The bit of `&` and `=`.
pub(crate) const SEPARATOR: u8 = 1;
/// The bit of `[`.
pub(crate) const OPEN: u8 = 2;
/// The bit of `]`.
pub(crate) const CLOSE: u8 = 4;
/// The bit of `+` and `%`.
pub(crate) const ESCAPE: u8 = 8;

/// The class of each byte, as a digit: the bits above, or 0 for an ordinary byte.
pub(crate) static CLASSES: [u8; 256] = *b"\
    00000000000000000000000000000000\
    00000810000800000000000000000100\
    00000000000000000000000000020400\
    00000000000000000000000000000000\
    00000000000000000000000000000000\
    00000000000000000000000000000000\
    00000000000000000000000000000000\
    00000000000000000000000000000000";

/// Returns whether the byte is ordinary.
#[inline(always)]
#[tactic(auto, using(crate::proofs::lemmas::escape::ByteClasses::ordinary_alone))]
pub(crate) fn is_ordinary(byte: u8) -> bool
    ensures all { result ≡ not (is_ampersand byte || is_escape byte || byte == 61 || byte == 91 || byte == 93) }
    ensures ampersand { IsTrue result → is_ampersand byte ≡ false }
    ensures has_no_escape { IsTrue result → is_escape byte ≡ false }
{
    CLASSES[byte as usize] == b'0'
}

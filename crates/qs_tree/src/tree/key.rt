//! Keys of maps.
ghost use Rattle.std.specs.Prelude.{◌≡◌, false, Some};
ghost use mathlib.Core.Path.{refl};
ghost use Rattle.qs_spec.specs.Segment.{Int, Str, compare_segments, is_same_segment};
ghost use Rattle.std.specs.Cmp.{on_per, on_equiv, on_po, on_total, partial_equiv_from_equiv, eq_by_cmp_equiv, partial_order_from_agreeing_total};
ghost use Rattle.qs_spec.proofs.Order.{segments_total};
ghost use Rattle.std.specs.Fmt.{WritesOnOk};
ghost use Rattle.std.specs.Str.Lossy.{utf8_lossy};
ghost use Rattle.qs_tree.specs.tree.Views.{segment_of_key, parsed_segment_of_key, displayed_key};

use crate::tree::byte_order::compare_bytes;
use std::borrow::CowSlice;
use std::cmp::Ordering;
use std::fmt;

/// A key of a map: an integer, or a string, which may be borrowed from the input.
///
/// Integer keys are ordered by value and come before string keys, which are ordered by their bytes. `==` ignores ownership: a
/// borrowed string equals an owned one with the same bytes.
///
/// ```
/// Key::from(7) < Key::from("7") // true
/// ```
#[derive(Debug, Drop)]
pub enum Key<'a> {
    /// A key that consists of digits, and whose value fits in 32 bits.
    Int(u32),
    /// Any other key.
    String(CowSlice<'a, u8>),
}

impl<'a> Key<'a> {
    /// Compares two keys, which may have different lifetimes.
    #[inline(always)]
    pub(crate) fn compare<'b>(&self, other: &Key<'b>) -> Ordering
        ensures { result ≡ compare_segments (segment_of_key self.now) (segment_of_key other.now) }
    {
        match (self, other) {
            (Key::Int(m), Key::Int(n)) => m.cmp(n),
            (Key::Int(_), Key::String(_)) => Ordering::Less,
            (Key::String(_), Key::Int(_)) => Ordering::Greater,
            (Key::String(s), Key::String(t)) => compare_bytes(s.as_slice(), t.as_slice()),
        }
    }
}

impl<'a> PartialEq for Key<'a> {
    ghost eq = { λ a b. is_same_segment (segment_of_key a) (segment_of_key b) };

    ghost laws = { on_per segment_of_key (partial_equiv_from_equiv (eq_by_cmp_equiv segments_total)) };

    fn eq(&self, other: &Key<'a>) -> bool {
        self.compare(other).is_eq()
    }
}

impl<'a> Eq for Key<'a> {
    ghost laws = { on_equiv segment_of_key (eq_by_cmp_equiv segments_total) };
}

impl<'a> PartialOrd for Key<'a> {
    ghost partial_cmp = { λ a b. Some (compare_segments (segment_of_key a) (segment_of_key b)) };

    ghost laws = { on_po segment_of_key (partial_order_from_agreeing_total compare_segments segments_total (λ a b. refl) (λ a b. refl)) };

    fn partial_cmp(&self, other: &Key<'a>) -> Option<Ordering> {
        Some(self.compare(other))
    }
}

impl<'a> Ord for Key<'a> {
    ghost cmp = { λ a b. compare_segments (segment_of_key a) (segment_of_key b) };

    ghost total = { on_total segment_of_key segments_total };

    ghost matches_partial_cmp = { λ a b. refl };

    ghost matches_eq = { λ a b. refl };

    fn cmp(&self, other: &Key<'a>) -> Ordering {
        self.compare(other)
    }
}

impl<'a> From<&'a [u8]> for Key<'a> {
    ghost from_gives = { λ bytes key. parsed_segment_of_key key ≡ record { segment = Str bytes.now; escaped = false } };

    fn from(bytes: &'a [u8]) -> Key<'a> {
        Key::String(CowSlice::Borrowed(bytes))
    }
}

impl<'a> From<&'a str> for Key<'a> {
    ghost from_gives = { λ text key. parsed_segment_of_key key ≡ record { segment = Str text.now; escaped = false } };

    fn from(text: &'a str) -> Key<'a> {
        Key::String(CowSlice::Borrowed(text.as_bytes()))
    }
}

impl<'a> From<u32> for Key<'a> {
    ghost from_gives = { λ number key. parsed_segment_of_key key ≡ record { segment = Int number; escaped = false } };

    fn from(number: u32) -> Key<'a> {
        Key::Int(number)
    }
}

/// Writes an integer in decimal, and a string between double quotes, with U+FFFD for what isn't UTF-8, as in
/// `String::from_utf8_lossy`.
impl fmt::Display for Key<'_> {
    ghost output = { λ key. Some (displayed_key (segment_of_key key)) };

    fn fmt<W: fmt::Write>(&self, f: &mut fmt::Formatter<W>) -> fmt::Result {
        match self {
            Key::Int(index) => write!(f, "{index}"),
            Key::String(text) => {
                f.write_str("\"")?;
                write_lossy(text.as_slice(), f)?;
                f.write_str("\"")
            }
        }
    }
}

// Writes bytes as a string, with U+FFFD for each sequence that isn't UTF-8.
fn write_lossy<W: fmt::Write>(bytes: &[u8], f: &mut fmt::Formatter<W>) -> fmt::Result
    ensures { WritesOnOk W.write_str_gives f.old result (utf8_lossy bytes.now) f.new }
{
    for chunk in bytes.utf8_chunks() {
        f.write_str(chunk.valid())?;
        if !chunk.invalid().is_empty() {
            f.write_str("\u{FFFD}")?;
        }
    }
    Ok(())
}

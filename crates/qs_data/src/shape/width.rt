//! How many bits a number has.

ghost use Rattle.std.specs.Prelude.{◌≡◌, ◌-◌, ◌^◌, pos, neg_ℤ};
ghost use Rattle.qs_data.specs.shape.Widths.{bits_of};

use std::fmt;

/// The width of a number.
///
/// ```
/// let age = reader.unsigned(Width::Bits8, node)?; // as Shape::U8 reads it
/// ```
#[derive(Clone, Copy)]
pub enum Width {
    Bits8,
    Bits16,
    Bits32,
    Bits64,
}

impl Width {
    /// Returns the greatest unsigned number of this width.
    pub(crate) fn unsigned_max(self) -> u64
        ensures { result ≡ 2 ^ bits_of self - 1 }
    {
        match self {
            Width::Bits8 => u64::from(u8::MAX),
            Width::Bits16 => u64::from(u16::MAX),
            Width::Bits32 => u64::from(u32::MAX),
            Width::Bits64 => u64::MAX,
        }
    }

    /// Returns the greatest signed number of this width.
    pub(crate) fn signed_max(self) -> i64
        ensures { result ≡ pos (2 ^ (bits_of self - 1) - 1) }
    {
        (self.unsigned_max() / 2) as i64
    }

    /// Returns the smallest signed number of this width.
    pub(crate) fn signed_min(self) -> i64
        ensures { result ≡ neg_ℤ (pos (2 ^ (bits_of self - 1))) }
    {
        -1 - self.signed_max()
    }
}

impl fmt::Display for Width {
    fn fmt<W: fmt::Write>(&self, f: &mut fmt::Formatter<W>) -> fmt::Result {
        f.write_str(match self {
            Width::Bits8 => "8",
            Width::Bits16 => "16",
            Width::Bits32 => "32",
            Width::Bits64 => "64",
        })
    }
}

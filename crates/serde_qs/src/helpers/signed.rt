//! Signed numbers as items.

ghost use Rattle.std.specs.Prelude.{◌≡◌, ◌-◌, ◌^◌, ◌≤ℤ◌, ◌++◌, ℤ, pos, neg_ℤ, true, OnOk, OnErr, string_bytes};
ghost use Rattle.std.specs.Fmt.{signed_decimal};
ghost use Rattle.qs_spec.specs.Fits.{fits_signed};
ghost use Rattle.qs_spec.specs.Scalar.{signed_number};
ghost use Rattle.qs_tree.specs.Error.{OnlyOutOfMemory};
ghost use Rattle.qs_data.specs.shape.Widths.{bits_of};

use super::item::{Item, append, invalid};
use itoa::Buffer;
use qs_data::{Result, Width};
use std::alloc::Global;

// Appends the text of a number of this width.
fn print_number(number: i64, _width: Width, out: &mut String) -> Result<()>
    requires { (neg_ℤ (pos (2 ^ (bits_of _width - 1))) ≤ℤ number) × (number ≤ℤ pos (2 ^ (bits_of _width - 1) - 1)) }
    ensures ok { OnOk result (string_bytes out.new ≡ string_bytes out.old ++ signed_decimal number) }
    ensures err { OnErr result (string_bytes out.new ≡ string_bytes out.old) }
    ensures errors { OnlyOutOfMemory result }
    ensures valid { fits_signed (bits_of _width) number ≡ true }
{
    append(Buffer::new().format(number), out)
}

impl Item for i8 {
    ghost Value = { ℤ };

    ghost value = { λ n. n };

    ghost printed = { λ n. signed_decimal n };

    ghost meaning = { signed_number 8 };

    ghost in_range = { fits_signed 8 };

    fn print(&self, out: &mut String) -> Result<()> {
        print_number(i64::from(*self), Width::Bits8, out)
    }

    fn parse(alloc: Global, text: &str) -> Result<i8> {
        match text.parse::<i8>() {
            Ok(number) => Ok(number),
            Err(_) => Err(invalid(alloc, text)),
        }
    }
}

impl Item for i16 {
    ghost Value = { ℤ };

    ghost value = { λ n. n };

    ghost printed = { λ n. signed_decimal n };

    ghost meaning = { signed_number 16 };

    ghost in_range = { fits_signed 16 };

    fn print(&self, out: &mut String) -> Result<()> {
        print_number(i64::from(*self), Width::Bits16, out)
    }

    fn parse(alloc: Global, text: &str) -> Result<i16> {
        match text.parse::<i16>() {
            Ok(number) => Ok(number),
            Err(_) => Err(invalid(alloc, text)),
        }
    }
}

impl Item for i32 {
    ghost Value = { ℤ };

    ghost value = { λ n. n };

    ghost printed = { λ n. signed_decimal n };

    ghost meaning = { signed_number 32 };

    ghost in_range = { fits_signed 32 };

    fn print(&self, out: &mut String) -> Result<()> {
        print_number(i64::from(*self), Width::Bits32, out)
    }

    fn parse(alloc: Global, text: &str) -> Result<i32> {
        match text.parse::<i32>() {
            Ok(number) => Ok(number),
            Err(_) => Err(invalid(alloc, text)),
        }
    }
}

impl Item for i64 {
    ghost Value = { ℤ };

    ghost value = { λ n. n };

    ghost printed = { λ n. signed_decimal n };

    ghost meaning = { signed_number 64 };

    ghost in_range = { fits_signed 64 };

    fn print(&self, out: &mut String) -> Result<()> {
        print_number(*self, Width::Bits64, out)
    }

    fn parse(alloc: Global, text: &str) -> Result<i64> {
        match text.parse::<i64>() {
            Ok(number) => Ok(number),
            Err(_) => Err(invalid(alloc, text)),
        }
    }
}

//! Unsigned numbers as items.

ghost use Rattle.std.specs.Prelude.{◌≡◌, ◌<◌, ◌^◌, ◌++◌, ℕ, true, OnOk, OnErr, decimal, string_bytes};
ghost use Rattle.qs_spec.specs.Fits.{fits_unsigned};
ghost use Rattle.qs_spec.specs.Scalar.{unsigned_number};
ghost use Rattle.qs_tree.specs.Error.{OnlyOutOfMemory};
ghost use Rattle.qs_data.specs.shape.Widths.{bits_of};

use super::item::{Item, append, invalid};
use itoa::Buffer;
use qs_data::{Result, Width};
use std::alloc::Global;

// Appends the text of a number of this width.
fn print_number(number: u64, _width: Width, out: &mut String) -> Result<()>
    requires { number < 2 ^ bits_of _width }
    ensures ok { OnOk result (string_bytes out.new ≡ string_bytes out.old ++ decimal number) }
    ensures err { OnErr result (string_bytes out.new ≡ string_bytes out.old) }
    ensures errors { OnlyOutOfMemory result }
    ensures valid { fits_unsigned (bits_of _width) number ≡ true }
{
    append(Buffer::new().format(number), out)
}

impl Item for u8 {
    ghost Value = { ℕ };

    ghost value = { λ n. n };

    ghost printed = { λ n. decimal n };

    ghost meaning = { unsigned_number 8 };

    ghost in_range = { fits_unsigned 8 };

    fn print(&self, out: &mut String) -> Result<()> {
        print_number(u64::from(*self), Width::Bits8, out)
    }

    fn parse(alloc: Global, text: &str) -> Result<u8> {
        match text.parse::<u8>() {
            Ok(number) => Ok(number),
            Err(_) => Err(invalid(alloc, text)),
        }
    }
}

impl Item for u16 {
    ghost Value = { ℕ };

    ghost value = { λ n. n };

    ghost printed = { λ n. decimal n };

    ghost meaning = { unsigned_number 16 };

    ghost in_range = { fits_unsigned 16 };

    fn print(&self, out: &mut String) -> Result<()> {
        print_number(u64::from(*self), Width::Bits16, out)
    }

    fn parse(alloc: Global, text: &str) -> Result<u16> {
        match text.parse::<u16>() {
            Ok(number) => Ok(number),
            Err(_) => Err(invalid(alloc, text)),
        }
    }
}

impl Item for u32 {
    ghost Value = { ℕ };

    ghost value = { λ n. n };

    ghost printed = { λ n. decimal n };

    ghost meaning = { unsigned_number 32 };

    ghost in_range = { fits_unsigned 32 };

    fn print(&self, out: &mut String) -> Result<()> {
        print_number(u64::from(*self), Width::Bits32, out)
    }

    fn parse(alloc: Global, text: &str) -> Result<u32> {
        match text.parse::<u32>() {
            Ok(number) => Ok(number),
            Err(_) => Err(invalid(alloc, text)),
        }
    }
}

impl Item for u64 {
    ghost Value = { ℕ };

    ghost value = { λ n. n };

    ghost printed = { λ n. decimal n };

    ghost meaning = { unsigned_number 64 };

    ghost in_range = { fits_unsigned 64 };

    fn print(&self, out: &mut String) -> Result<()> {
        print_number(*self, Width::Bits64, out)
    }

    fn parse(alloc: Global, text: &str) -> Result<u64> {
        match text.parse::<u64>() {
            Ok(number) => Ok(number),
            Err(_) => Err(invalid(alloc, text)),
        }
    }
}

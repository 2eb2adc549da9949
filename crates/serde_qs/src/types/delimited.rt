//! A list of whole numbers in one text, as a field of a struct.

ghost use Rattle.std.specs.Prelude.{◌≡◌, ℕ, true, map, refl};
ghost use Rattle.std.specs.Fmt.{decimal, signed_decimal};
ghost use Rattle.qs_spec.specs.Fits.{fits_signed, fits_unsigned};
ghost use Rattle.qs_spec.specs.Scalar.{signed_number, unsigned_number};
ghost use Rattle.serde_qs.specs.Delimited.{is_number_delimiter, list_data};
ghost use Rattle.serde_qs.specs.Items.{list_in};
ghost use Rattle.serde_qs.specs.internal.NumberLists.{signed_items, unsigned_items};
ghost use Rattle.serde_qs.specs.internal.OwnTables.{delimited_datum, themselves};
ghost use Rattle.qs_data.specs.data.Views.{data_of};
ghost use Rattle.serde_qs.specs.Typed.{GivesValue};
ghost use Rattle.serde_qs.specs.Tables.{AreNumbersOf, Numbers, delimited_table, numbers_of};

use crate::helpers::{Item, generic_delimiter};
use crate::traits::{Deserialize, RoundTrip, Serialize};
use qs_data::{Data, Result, Shape};
use std::alloc::Global;
use std::marker::PhantomData;

/// A whole number, of 8 to 64 bits.
///
/// It is implemented for these eight types alone.
///
/// ```
/// pub values: Delimited<i16, Comma>, // i16 is one of them
/// ```
pub trait WholeNumber: Item + RoundTrip {
    // What the numbers are printed as and parsed from, with the proof that they come back, as one value.
    ghost numbers: { Numbers Self };

    // They are the type's own.
    ghost are_own: { AreNumbersOf numbers Self.Item.value Self.in_range Self.printed Self.Item.meaning };
}

/// The character between the numbers of a [`Delimited`], which is neither a digit nor `-`.
///
/// ```
/// pub struct Dot;
///
/// impl Delimiter for Dot {
///     ghost delimiter = { 46 };
///
///     ghost is_free = { refl };
///
///     fn delimiter() -> char {
///         '.'
///     }
/// }
/// ```
pub trait Delimiter {
    ghost delimiter: { ℕ };

    ghost is_free: { is_number_delimiter delimiter ≡ true };

    /// Returns the character. For the types of this crate it takes constant time and doesn't allocate.
    ///
    /// ```
    /// let delimiter = Comma::delimiter(); // ','
    /// ```
    fn delimiter() -> char
        ensures { result ≡ delimiter };
}

/// The delimiter of [`comma_separated`](crate::helpers::comma_separated).
///
/// ```
/// pub values: Delimited<u32, Comma>, // values=1,2,3
/// ```
#[derive(Debug, PartialEq, Drop)]
pub struct Comma;

/// The delimiter of [`pipe_delimited`](crate::helpers::pipe_delimited).
///
/// ```
/// pub values: Delimited<u32, Pipe>, // values=1|2|3
/// ```
#[derive(Debug, PartialEq, Drop)]
pub struct Pipe;

/// The delimiter of [`space_delimited`](crate::helpers::space_delimited).
///
/// ```
/// pub values: Delimited<u32, Space>, // values=1+2+3
/// ```
#[derive(Debug, PartialEq, Drop)]
pub struct Space;

/// A list of whole numbers that is read from and written as one text, with a delimiter between the numbers.
///
/// ```
/// pub struct Chart {
///     pub values: Delimited<u32, Comma>, // values=1,2,3
/// }
/// ```
///
/// The empty list is the empty text, `values=`. A text with a piece that isn't a number is rejected: ``invalid item `x` ``.
#[derive(Debug, PartialEq, Drop)]
pub struct Delimited<T, D> {
    pub items: Vec<T>,
    delimiter: PhantomData<D>,
}

impl<T, D> Delimited<T, D> {
    /// Returns the list of these items, in constant time. It doesn't allocate.
    ///
    /// ```
    /// let values: Delimited<u32, Comma> = Delimited::new(items);
    /// ```
    pub fn new(items: Vec<T>) -> Delimited<T, D>
        ensures { result.items ≡ items }
    {
        Delimited {
            items,
            delimiter: PhantomData,
        }
    }
}

impl<T: WholeNumber, D: Delimiter> Serialize for Delimited<T, D> {
    ghost datum = { λ list. list_data T.in_range T.printed D.delimiter list.items.items };

    fn to_data(&self, alloc: Global) -> Result<Data> {
        generic_delimiter::serialize(alloc, self.items.as_slice(), D::delimiter())
    }
}

impl<T: WholeNumber + Drop, D: Delimiter> Deserialize for Delimited<T, D> {
    ghost table = { delimited_table T.numbers D.delimiter D.is_free };

    fn shape(_alloc: Global) -> Result<Shape> {
        Ok(Shape::Text)
    }

    fn from_data(alloc: Global, datum: Data) -> Result<Delimited<T, D>> {
        let items = numbers_in(alloc, datum, D::delimiter())?;
        Ok(Delimited::new(items))
    }
}

// Returns the numbers in a text, in the words of their table.
fn numbers_in<T: WholeNumber + Drop>(alloc: Global, datum: Data, delimiter: char) -> Result<Vec<T>>
    ensures { GivesValue (λ list. map T.numbers.value list.items) result (list_in T.numbers.meaning delimiter (data_of datum)) }
{
    generic_delimiter::deserialize(alloc, datum, delimiter)
}

impl<T: WholeNumber + Drop, D: Delimiter> RoundTrip for Delimited<T, D> {
    ghost same_datum = { λ list. delimited_datum T.numbers T.Item.value T.in_range T.printed T.Item.meaning T.are_own D.delimiter list.items.items };
}

impl Delimiter for Comma {
    ghost delimiter = { 44 };

    ghost is_free = { refl };

    fn delimiter() -> char {
        ','
    }
}

impl Delimiter for Pipe {
    ghost delimiter = { 124 };

    ghost is_free = { refl };

    fn delimiter() -> char {
        '|'
    }
}

impl Delimiter for Space {
    ghost delimiter = { 32 };

    ghost is_free = { refl };

    fn delimiter() -> char {
        ' '
    }
}

impl WholeNumber for u8 {
    ghost numbers = { numbers_of (λ n. n) (fits_unsigned 8) decimal (unsigned_number 8) (unsigned_items 8 refl) };

    ghost are_own = { themselves (λ n. n) (fits_unsigned 8) decimal (unsigned_number 8) (unsigned_items 8 refl) };
}

impl WholeNumber for u16 {
    ghost numbers = { numbers_of (λ n. n) (fits_unsigned 16) decimal (unsigned_number 16) (unsigned_items 16 refl) };

    ghost are_own = { themselves (λ n. n) (fits_unsigned 16) decimal (unsigned_number 16) (unsigned_items 16 refl) };
}

impl WholeNumber for u32 {
    ghost numbers = { numbers_of (λ n. n) (fits_unsigned 32) decimal (unsigned_number 32) (unsigned_items 32 refl) };

    ghost are_own = { themselves (λ n. n) (fits_unsigned 32) decimal (unsigned_number 32) (unsigned_items 32 refl) };
}

impl WholeNumber for u64 {
    ghost numbers = { numbers_of (λ n. n) (fits_unsigned 64) decimal (unsigned_number 64) (unsigned_items 64 refl) };

    ghost are_own = { themselves (λ n. n) (fits_unsigned 64) decimal (unsigned_number 64) (unsigned_items 64 refl) };
}

impl WholeNumber for i8 {
    ghost numbers = { numbers_of (λ z. z) (fits_signed 8) signed_decimal (signed_number 8) (signed_items 8 refl) };

    ghost are_own = { themselves (λ z. z) (fits_signed 8) signed_decimal (signed_number 8) (signed_items 8 refl) };
}

impl WholeNumber for i16 {
    ghost numbers = { numbers_of (λ z. z) (fits_signed 16) signed_decimal (signed_number 16) (signed_items 16 refl) };

    ghost are_own = { themselves (λ z. z) (fits_signed 16) signed_decimal (signed_number 16) (signed_items 16 refl) };
}

impl WholeNumber for i32 {
    ghost numbers = { numbers_of (λ z. z) (fits_signed 32) signed_decimal (signed_number 32) (signed_items 32 refl) };

    ghost are_own = { themselves (λ z. z) (fits_signed 32) signed_decimal (signed_number 32) (signed_items 32 refl) };
}

impl WholeNumber for i64 {
    ghost numbers = { numbers_of (λ z. z) (fits_signed 64) signed_decimal (signed_number 64) (signed_items 64 refl) };

    ghost are_own = { themselves (λ z. z) (fits_signed 64) signed_decimal (signed_number 64) (signed_items 64 refl) };
}

//! Limits that an input is checked against before it is parsed.

ghost use Rattle.std.specs.Prelude.{◌≡◌, ◌<◌, length, slice_get, IfSome, Some};
ghost use Rattle.memchr.specs.Find.{is_byte, places};
ghost use Rattle.serde_qs.specs.Limits.{Checks, lifted, limit_text, starts};

use memchr::memchr_iter;
use std::fmt;

/// How long an input may be, and how many pairs it may have.
///
/// A service checks the querystrings of strangers first, so that neither time nor memory is spent on one that is too large:
///
/// ```
/// let limits = Limits::new().max_length(65_536).max_pairs(1_000);
/// limits.check(body).map_err(Rejected::TooLarge)?; // an error of your own
/// let order: Order = from_bytes(alloc, body).map_err(Rejected::Unread)?;
/// ```
///
/// `Limits::new()` has no limits. No method allocates. What a querystring means doesn't depend on them: they aren't part of a
/// [`Config`](crate::Config).
#[derive(Clone, Copy, Debug, PartialEq, Eq)]
pub struct Limits {
    max_length: usize,
    max_pairs: usize,
}

/// Which limit an input exceeds. Its text is `querystring too long: 4 bytes`, or
/// `too many pairs: the first beyond the limit begins at byte 8`.
///
/// ```
/// match limits.check(body) {
///     Ok(()) => read(body),
///     Err(LimitError::TooLong(_) | LimitError::TooManyPairs(_)) => reject(),
/// }
/// ```
#[derive(Clone, Copy, Debug, PartialEq, Eq)]
pub enum LimitError {
    /// The input has this many bytes, more than are allowed.
    TooLong(usize),
    /// The first pair beyond the limit begins at this byte.
    TooManyPairs(usize),
}

impl Limits {
    /// Returns no limits, in constant time.
    ///
    /// ```
    /// Limits::new().check(input) // Ok, whatever the input
    /// ```
    #[must_use]
    pub fn new() -> Self
        ensures { result ≡ lifted }
    {
        Limits {
            max_length: usize::MAX,
            max_pairs: usize::MAX,
        }
    }

    /// Returns these limits with another maximum length in bytes, in constant time.
    ///
    /// ```
    /// Limits::new().max_length(3).check(b"a=12") // Err(LimitError::TooLong(4))
    /// ```
    #[must_use]
    pub fn max_length(self, max_length: usize) -> Self
        ensures length { result.max_length ≡ max_length }
        ensures pairs { result.max_pairs ≡ self.max_pairs }
    {
        Limits { max_length, ..self }
    }

    /// Returns these limits with another maximum number of pairs, in constant time.
    ///
    /// ```
    /// Limits::new().max_pairs(1).check(b"a=1&b=2") // Err(LimitError::TooManyPairs(4))
    /// ```
    #[must_use]
    pub fn max_pairs(self, max_pairs: usize) -> Self
        ensures length { result.max_length ≡ self.max_length }
        ensures pairs { result.max_pairs ≡ max_pairs }
    {
        Limits { max_pairs, ..self }
    }

    /// Returns `Ok` if the input is within both limits, and otherwise the limit that it exceeds.
    ///
    /// The pieces between `&` are counted as pairs, empty ones too, as Rack counts them; the empty input has none. The length is checked
    /// first. It doesn't allocate, and looks at each byte at most once, many at a time, up to the first pair beyond the limit.
    ///
    /// ```
    /// Limits::new().max_pairs(2).check(b"a=1&b=2&c=3") // Err(LimitError::TooManyPairs(8))
    /// ```
    pub fn check(self, input: &[u8]) -> Result<(), LimitError>
        ensures { Checks self input.now result }
    {
        if input.len() > self.max_length {
            return Err(LimitError::TooLong(input.len()));
        }
        match first_beyond(input, self.max_pairs) {
            Some(at) => Err(LimitError::TooManyPairs(at)),
            None => Ok(()),
        }
    }
}

impl Default for Limits {
    ghost is_default = { λ limits. limits ≡ lifted };

    /// Returns no limits, in constant time.
    fn default() -> Self {
        Limits::new()
    }
}

impl fmt::Display for LimitError {
    ghost output = { λ error. Some (limit_text error) };

    fn fmt<W: fmt::Write>(&self, f: &mut fmt::Formatter<W>) -> fmt::Result {
        match self {
            LimitError::TooLong(len) => write!(f, "querystring too long: {len} bytes"),
            LimitError::TooManyPairs(at) => write!(
                f,
                "too many pairs: the first beyond the limit begins at byte {at}"
            ),
        }
    }
}

// Returns the index of the first byte of the pair that has this many before it.
fn first_beyond(input: &[u8], pairs: usize) -> Option<usize>
    ensures { result ≡ slice_get (starts input.now) pairs }
{
    match pairs.checked_sub(1) {
        None => (!input.is_empty()).then_some(0),
        Some(before) => nth_separator(input, before).map(|at| at + 1),
    }
}

// Returns the index of the `&` that has this many before it.
fn nth_separator(input: &[u8], n: usize) -> Option<usize>
    ensures value { result ≡ slice_get (places (is_byte 38) input.now) n }
    ensures within { IfSome result (λ at. at < length input.now) }
{
    memchr_iter(b'&', input).nth(n)
}

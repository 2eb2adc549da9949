//! The range of the pair with an error.

ghost use Rattle.std.specs.Prelude.{◌≤◌, length};
ghost use Rattle.qs_explain.specs.PairRange.{IsFirst, IsPairAt};

use crate::state::{find_key_len, find_start};
use qs_data::Config;

/// The range of a pair in an input: `input[start..end]`, without the `&` on either side.
///
/// ```
/// let pair = find_pair(Config::new(), input, position);
/// let key = &input[pair.start..pair.key_end];
/// ```
#[derive(Debug, Clone, Copy, PartialEq, Eq)]
pub struct PairRange {
    /// Where the pair begins.
    pub start: usize,
    /// Where its key ends: at the first `=` outside brackets, or at the end of the pair if there is none.
    pub key_end: usize,
    /// Where the pair ends.
    pub end: usize,
}

/// Returns the range of the pair in which parsing stopped. Pass the configuration that the input was parsed with, and the position
/// of the [`Parse`](qs_data::Error::Parse) error, which is the number of bytes that were parsed.
///
/// The pair has the last byte that was parsed, or ends right before it: at an `&` or at the end of the input. `&` and `=` in brackets
/// are bytes of the key. If brackets aren't closed, the pair therefore includes each `&` that was parsed after them, and all of it
/// is the key. The bytes after the error weren't parsed: there the pair continues to the next `&`, and its key to the first `=`, as
/// if there were no error. Doesn't allocate, and looks at each byte of the input up to the end of the pair at most twice.
///
/// ```
/// let pair = find_pair(Config::new(), b"a[=]x=1&b=2", 5); // 0..7, with the key 0..5
/// let pair = find_pair(Config::new(), b"a=1&b[=2&c=3", 13); // 4..12, and all of it is its key
/// ```
pub fn find_pair(config: Config, input: &[u8], position: usize) -> PairRange
    ensures { IsPairAt config input.now position result }
{
    let (is_form, max_depth) = (config.get_form(), config.get_max_depth());
    let at = position.saturating_sub(1).min(input.len());
    let start = find_start(is_form, max_depth, &input[..at]);
    let end = find_first(input, b'&', at, input.len());
    let key_end = start + find_key_len(is_form, max_depth, &input[start..end]);
    PairRange {
        start,
        key_end,
        end,
    }
}

// Returns the position of the first such byte between two positions, or the second position if there is none.
fn find_first(input: &[u8], byte: u8, from: usize, to: usize) -> usize
    requires order { from ≤ to }
    requires within { to ≤ length input.now }
    ensures { IsFirst byte input.now from to result }
{
    let mut at = from;
    while at < to {
        if input[at] == byte {
            return at;
        }
        at += 1;
    }
    to
}

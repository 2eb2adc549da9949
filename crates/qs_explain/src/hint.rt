//! What escaped brackets were probably meant to be.

ghost use Rattle.std.specs.Prelude.{◌≡◌, option_map};
ghost use Rattle.qs_explain.specs.Hint.{hint_of, is_key_after, is_unread_bracket, unread_bracket};

use qs_data::Config;
use std::fmt;

/// Why an input is probably not read as its sender meant it.
///
/// ```
/// let hint = find_hint(Config::new().use_form_encoding(true), b"user%5bage%5d=7"); // Some(Hint::LowerCase(7))
/// ```
#[derive(Debug, Clone, Copy, PartialEq, Eq)]
pub enum Hint {
    /// A key has an escaped bracket that ends at this position: `%5B` or `%5D`, in either case. In query mode it is part of the key.
    Escaped(usize),
    /// A key has a bracket escaped in lower case that ends at this position: `%5b` or `%5d`. In form mode it is part of the key.
    LowerCase(usize),
}

/// Returns a hint if and only if a key has an escaped bracket that the configuration's mode doesn't read as a bracket: `%5b` or `%5d`,
/// and in query mode also `%5B` or `%5D`. The hint has the position after the first of them.
///
/// A key is taken to end at the first `=` of a pair, and an `&` to begin another pair, even in brackets, where parsing takes both
/// for bytes of the key. Doesn't allocate, and looks at each byte at most once.
///
/// ```
/// let hint = find_hint(Config::new(), b"user%5Bage%5D=7"); // Some(Hint::Escaped(7))
/// ```
pub fn find_hint(config: Config, input: &[u8]) -> Option<Hint>
    ensures { result ≡ option_map (hint_of config.is_form) (unread_bracket config.is_form input.now) }
{
    let position = find_unread_bracket(config.get_form(), input)?;
    Some(if config.get_form() {
        Hint::LowerCase(position)
    } else {
        Hint::Escaped(position)
    })
}

// Returns the position after the first escaped bracket in a key that the mode doesn't read as one.
fn find_unread_bracket(is_form: bool, input: &[u8]) -> Option<usize>
    ensures { result ≡ unread_bracket is_form input.now }
{
    let mut in_key = true;
    let mut before = (0u8, 0u8);
    for (at, byte) in input.iter().enumerate() {
        if in_key && is_unread(is_form, before.0, before.1, *byte) {
            return Some(at + 1);
        }
        in_key = is_in_key(in_key, *byte);
        before = (before.1, *byte);
    }
    None
}

// Returns whether three bytes are an escaped bracket that the mode doesn't read as one.
fn is_unread(is_form: bool, percent: u8, five: u8, letter: u8) -> bool
    ensures { result ≡ is_unread_bracket is_form percent five letter }
{
    let is_escape = percent == b'%' && five == b'5';
    let is_lower = letter == b'b' || letter == b'd';
    let is_upper = letter == b'B' || letter == b'D';
    is_escape && (is_lower || !is_form && is_upper)
}

// Returns whether the byte after this one is in a key.
fn is_in_key(in_key: bool, byte: u8) -> bool
    ensures { result ≡ is_key_after in_key byte }
{
    byte == b'&' || in_key && byte != b'='
}

/// One line, as ``the escaped bracket before position 7 is part of the key: write `[` and `]` as they are, or read in form mode``.
impl fmt::Display for Hint {
    fn fmt<W: fmt::Write>(&self, f: &mut fmt::Formatter<W>) -> fmt::Result {
        match self {
            Hint::Escaped(position) => write!(
                f,
                "the escaped bracket before position {position} is part of the key: write `[` and `]` as they are, or read in form mode"
            ),
            Hint::LowerCase(position) => write!(
                f,
                "the escaped bracket before position {position} is part of the key: form mode reads `%5B` and `%5D` in upper case"
            ),
        }
    }
}

//! Classes of bytes.

ghost use Rattle.std.specs.Prelude.{◌≡◌, ◌≤◌, length};
ghost use Rattle.std.specs.List.{prefix_len};
ghost use Rattle.qs_c.specs.Classes.{is_in};
ghost use Rattle.qs_c.specs.Notation.{is_blank, is_of_word};
ghost use Rattle.qs_spec.specs.Escape.{is_between};

/// A class of bytes.
#[derive(Clone, Copy)]
pub(crate) enum Class {
    Blank,
    /// ASCII letters and digits, `_`, `-`, and bytes beyond ASCII.
    Word,
    NoQuote,
}

impl Class {
    // Returns whether the byte is in the class.
    fn has(self, byte: u8) -> bool
        ensures { result ≡ is_in self byte }
    {
        match self {
            Class::Blank => is_blank(byte),
            Class::Word => is_of_word(byte),
            Class::NoQuote => byte != b'"',
        }
    }
}

// Returns whether the byte is white space.
fn is_blank(byte: u8) -> bool
    ensures { result ≡ is_blank byte }
{
    byte == b' ' || byte == b'\t' || byte == b'\n' || byte == b'\r'
}

// Returns whether a word may contain the byte: an ASCII letter or digit, `_`, `-`, or a byte beyond ASCII.
fn is_of_word(byte: u8) -> bool
    ensures { result ≡ is_of_word byte }
{
    is_between(b'a', b'z', byte)
        || is_between(b'A', b'Z', byte)
        || is_between(b'0', b'9', byte)
        || byte == b'_'
        || byte == b'-'
        || byte >= 128
}

// Returns whether the byte is between `low` and `high`, both included.
fn is_between(low: u8, high: u8, byte: u8) -> bool
    ensures { result ≡ is_between low high byte }
{
    low <= byte && byte <= high
}

/// Returns how many bytes at the front are in the class.
pub(crate) fn run(class: Class, bytes: &[u8]) -> usize
    ensures len { result ≡ prefix_len (is_in class) bytes.now }
    ensures within { result ≤ length bytes.now }
{
    let mut len = 0;
    for byte in bytes {
        if !class.has(*byte) {
            break;
        }
        len += 1;
    }
    len
}

//! Text from an input, printed on one line.

use std::fmt;
use std::fmt::Write;

/// Prints bytes as text, with U+FFFD for each invalid UTF-8 sequence.
pub(crate) fn write_bytes<W: fmt::Write>(bytes: &[u8], f: &mut fmt::Formatter<W>) -> fmt::Result {
    for chunk in bytes.utf8_chunks() {
        write_text(chunk.valid(), f)?;
        if !chunk.invalid().is_empty() {
            f.write_str("\u{FFFD}")?;
        }
    }
    Ok(())
}

// Prints a text, with an escape such as `\u{a}` for each character that would control a terminal or end the line.
fn write_text<W: fmt::Write>(text: &str, f: &mut fmt::Formatter<W>) -> fmt::Result {
    for c in text.chars() {
        if c.is_control() || c == '\u{2028}' || c == '\u{2029}' {
            let escape = c.escape_unicode();
            write!(f, "{escape}")?;
        } else {
            f.write_char(c)?;
        }
    }
    Ok(())
}

/// A writer that prints what is written to it on one line: a control character becomes an escape such as `\u{a}`.
///
/// ```
/// write!(OneLine(f), "{error}")?; // the error's text holds a key of the input
/// ```
#[derive(Drop)]
pub struct OneLine<'a, W>(pub &'a mut fmt::Formatter<W>);

impl<W: fmt::Write> fmt::Write for OneLine<'_, W> {
    fn write_str(&mut self, s: &str) -> fmt::Result {
        write_text(s, self.0)
    }
}

//! The path to the current node of a format, as text.

use super::clues::Place;
use super::format::TreeFormat;
use super::frame::{Frame, FrameKind};
use super::node::{Node, entry_at};
use qs_tree::{Key, ParsedValue};
use std::alloc::AllocError;
use std::fmt::{Display, Write};

impl<'t, 'qs> TreeFormat<'t, 'qs> {
    /// Returns the path to the current node.
    pub(crate) fn path(&self) -> Result<String, AllocError> {
        let mut path = self.path_around()?;
        if let Some(frame) = self.frame {
            append_segment(&mut path, frame, self.top)?;
        }
        Ok(path)
    }

    /// Returns the path to an entry of the innermost map, or of the current node if that is a map that was left.
    pub(crate) fn path_to(&self, place: Place) -> Result<String, AllocError> {
        if self.depth() >= place.depth {
            let mut path = self.path_around()?;
            if let Some(frame) = self.frame {
                append_segment(&mut path, frame.over(place.at), self.top)?;
            }
            return Ok(path);
        }
        let mut path = self.path()?;
        append_segment(
            &mut path,
            Frame::new(FrameKind::Map).over(place.at),
            self.node,
        )?;
        Ok(path)
    }

    /// Returns the path to the variant that the current text names.
    pub(crate) fn path_to_variant(&self) -> Result<String, AllocError> {
        let mut path = self.path()?;
        if let ParsedValue::String(text) = self.node {
            append_name(&mut path, text.as_slice())?;
        }
        Ok(path)
    }

    // Returns the path to the innermost list or map.
    fn path_around(&self) -> Result<String, AllocError> {
        let mut path = String::new(self.reader.alloc);
        for outer in &self.around {
            append_segment(&mut path, outer.frame, outer.top)?;
        }
        Ok(path)
    }
}

// Appends the segment that leads from a list or a map to its current item or entry; none before the first.
fn append_segment(
    path: &mut String,
    frame: Frame,
    value: &ParsedValue<'_>,
) -> Result<(), AllocError> {
    if frame.next == 0 {
        return Ok(());
    }
    let at = frame.last_index();
    match frame.kind {
        FrameKind::Items | FrameKind::Places => append_index(path, at),
        FrameKind::Fields | FrameKind::Map => match entry_at(value, at) {
            Some((Node::Key(key), _)) => append_key(path, key),
            _ => Ok(()),
        },
    }
}

// Appends an index in brackets.
fn append_index(path: &mut String, at: usize) -> Result<(), AllocError> {
    path.push('[')?;
    append(path, &at)?;
    path.push(']')
}

// Appends a key, after a dot if the path isn't empty.
fn append_key(path: &mut String, key: &Key<'_>) -> Result<(), AllocError> {
    match key {
        Key::Int(number) => {
            append_dot(path)?;
            append(path, number)
        }
        Key::String(text) => append_name(path, text.as_slice()),
    }
}

// Appends a name, after a dot if the path isn't empty.
fn append_name(path: &mut String, name: &[u8]) -> Result<(), AllocError> {
    append_dot(path)?;
    append_text(path, name)
}

// Appends a dot if the path isn't empty.
fn append_dot(path: &mut String) -> Result<(), AllocError> {
    if path.is_empty() {
        Ok(())
    } else {
        path.push('.')
    }
}

// Appends bytes as text, with U+FFFD for each run of bytes that isn't UTF-8.
fn append_text(path: &mut String, bytes: &[u8]) -> Result<(), AllocError> {
    for chunk in bytes.utf8_chunks() {
        append_line(path, chunk.valid())?;
        if !chunk.invalid().is_empty() {
            path.push('\u{FFFD}')?;
        }
    }
    Ok(())
}

// Appends a text, with an escape such as `\u{a}` for each character that would control a terminal or end the line.
fn append_line(path: &mut String, text: &str) -> Result<(), AllocError> {
    for c in text.chars() {
        if c.is_control() || c == '\u{2028}' || c == '\u{2029}' {
            append(path, &c.escape_unicode())?;
        } else {
            path.push(c)?;
        }
    }
    Ok(())
}

// Appends what a value prints.
fn append<T: Display>(path: &mut String, value: &T) -> Result<(), AllocError> {
    match write!(path, "{value}") {
        Ok(()) => Ok(()),
        Err(_) => Err(AllocError),
    }
}

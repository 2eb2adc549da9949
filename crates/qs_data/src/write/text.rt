//! The text of an entry under construction.

ghost use Rattle.std.specs.Prelude.{◌≡◌, ◌+◌, ◌<◌, ◌≤◌, ◌++◌, [], length, take, drop, OnOk};
ghost use Rattle.std.specs.List.{All};
ghost use Rattle.qs_spec.specs.Escape.{encoded};
ghost use Rattle.qs_data.specs.write.State.{IsVisible};

use qs_tree::encode_to;
use std::alloc::{AllocError, Global};
use std::marker::Model;

/// The first bytes of a longer buffer: appending writes by index, and truncating changes a number.
#[derive(Drop)]
pub(crate) struct TextBuffer {
    room: Vec<u8>,
    len: usize,
}

impl Model for TextBuffer {
    ghost use Rattle.std.specs.Prelude.{ℕ, ◌≤◌, List, length, take};

    ghost Value = { List ℕ };

    ghost view = { λ t. take t.len t.room.items };

    ghost invariant = { λ t. t.len ≤ length t.room.items };
}

impl TextBuffer {
    /// Returns a buffer without text. Nothing is allocated.
    pub(crate) fn new(alloc: Global) -> TextBuffer
        ensures { result ≡ [] }
    {
        TextBuffer {
            room: Vec::new(alloc),
            len: 0,
        }
    }

    /// Returns how many bytes it has.
    pub(crate) fn len(&self) -> usize
        ensures value { result ≡ length self.now }
        ensures few { result < usize.MAX }
    {
        self.len
    }

    /// Returns the bytes from `start` on.
    pub(crate) fn after(&self, start: usize) -> &[u8]
        requires { start ≤ length self.now }
        ensures { result.now ≡ drop start self.now }
    {
        &self.room[start..self.len]
    }

    /// Keeps the first `len` bytes, if there are more.
    pub(crate) fn truncate(&mut self, len: usize)
        ensures { self.new ≡ take len self.old }
    {
        if len < self.len {
            self.len = len;
        }
    }

    /// Appends bytes.
    #[inline(always)]
    pub(crate) fn append(&mut self, bytes: &[u8]) -> Result<(), AllocError>
        ensures ok { OnOk result (self.new ≡ self.old ++ bytes.now) }
    {
        make_room(&mut self.room, self.len, bytes.len())?;
        let end = self.len + bytes.len();
        self.room[self.len..end].copy_from_slice(bytes);
        self.len = end;
        Ok(())
    }

    /// Appends bytes, encoded.
    #[inline(always)]
    #[tactic(auto, using(qs_tree::proofs::lemmas::escape::EncodedFronts::encoded_few, crate::proofs::lemmas::write::Visible::encoded_visible))]
    pub(crate) fn append_encoded(&mut self, bytes: &[u8], is_form: bool) -> Result<(), AllocError>
        ensures ok { OnOk result (self.new ≡ self.old ++ encoded is_form bytes.now) }
        ensures visible { All IsVisible (encoded is_form bytes.now) }
    {
        make_room(&mut self.room, self.len, bytes.len().saturating_mul(3))?;
        self.len = encode_to(bytes, is_form, &mut self.room, self.len);
        Ok(())
    }
}

// Makes the buffer long enough for `more` bytes after the first `len`.
#[inline(always)]
fn make_room(room: &mut Vec<u8>, len: usize, more: usize) -> Result<(), AllocError>
    requires { len ≤ length room.old.items }
    ensures kept { take len room.new.items ≡ take len room.old.items }
    ensures within { length room.old.items ≤ length room.new.items }
    ensures ok { OnOk result (len + more ≤ length room.new.items) }
{
    if more <= room.len() - len {
        return Ok(());
    }
    grow(room, len, more)
}

// Grows the buffer to at least twice its length, so that growing is rare.
#[inline(never)]
fn grow(room: &mut Vec<u8>, len: usize, more: usize) -> Result<(), AllocError>
    requires { len ≤ length room.old.items }
    ensures kept { take len room.new.items ≡ take len room.old.items }
    ensures within { length room.old.items ≤ length room.new.items }
    ensures ok { OnOk result (len + more ≤ length room.new.items) }
{
    let least = room.len().saturating_mul(2).saturating_add(256);
    room.resize(least.saturating_add(more), 0)
}

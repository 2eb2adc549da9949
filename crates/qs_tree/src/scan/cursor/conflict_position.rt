//! The key and position of a conflict's error, found in the bytes of its pair.

ghost use Rattle.std.specs.Prelude.{◌≡◌, ◌+◌, ◌≤◌, length, take};
ghost use Rattle.qs_tree.specs.internal.scan.Cursor.{taken, to_come};

use crate::scan::cursor::{Cursor, Steps, Token, Until};

/// The key and position of a conflict's error.
#[derive(Clone, Copy)]
pub(crate) struct ConflictPosition<'qs> {
    /// The bytes of the pair before the bracket of the conflict.
    pub key: &'qs [u8],
    /// How many steps remain.
    pub to_come: usize,
}

impl<'qs> Cursor<'qs> {
    /// Returns the key and position of a conflict at a level of the pair's path: the bytes before the bracket of the next key, and the
    /// position after the first token in it. At the root key it is the position after the bracket. If there is no bracket, these are
    /// all bytes taken of the pair, and the current position.
    ///
    /// Reads the bytes of the pair again, and returns only bytes that were taken.
    pub fn conflict_position(&self, level: usize, max_depth: usize) -> ConflictPosition<'qs>
        ensures key { result.key.now ≡ take (length result.key.now) (taken self.now.pair.now self.now.rest.now) }
        ensures to_come { length self.now.rest.now + to_come self.now.ended ≤ result.to_come }
    {
        let taken = self.pair.len().saturating_sub(self.rest.len());
        let now = self.to_come();
        let (key_len, to_come) = match bracket_at(self.pair, self.is_form, level, max_depth) {
            Some((key_len, to_come)) => (key_len.min(taken), to_come.max(now)),
            None => (taken, now),
        };
        ConflictPosition {
            key: &self.pair[..key_len],
            to_come,
        }
    }
}

// Returns how many bytes of a pair are before the bracket of the key at a level, and how many steps remain after the first token in
// it. For the root key these are the bytes of that key, and the steps after the bracket that ends it.
fn bracket_at(
    pair: &[u8],
    is_form: bool,
    level: usize,
    max_depth: usize,
) -> Option<(usize, usize)> {
    if max_depth == 0 {
        return None;
    }
    let mut cursor = Cursor::new(pair, is_form, Steps::new());
    let (root, stop) = cursor.run(Until::SeparatorOrOpen);
    let mut bracket = opening(stop)?;
    let Some(before) = level.checked_sub(usize::from(!root.is_empty())) else {
        return Some((root.len(), cursor.to_come()));
    };
    if before > max_depth {
        return None;
    }
    for _ in 0..before {
        cursor.next()?;
        cursor.run(Until::Close);
        bracket = opening(cursor.next())?;
    }
    cursor.next()?;
    let key_len = pair.len().saturating_sub(bracket.position.rest.len());
    Some((key_len, cursor.to_come()))
}

// Returns a token that is an opening bracket.
fn opening(token: Option<Token<'_>>) -> Option<Token<'_>> {
    token.filter(|token| token.kind.is_open())
}

//! The keys of a pair.
ghost use Rattle.std.specs.Prelude.{◌≡◌, ◌<◌, ◌+◌, ◌^◌, ◌∷◌, ◌++◌, [], length, drop, OnOk};

use crate::tree::key::Key;
use std::alloc::{AllocError, Global};
use std::marker::Model;
use std::mem;

/// How many keys after the first are allocated at once: as many as a path has at the default depth limit.
const FURTHER: usize = 6;

/// The keys of a pair. Contracts see their list. The first is stored in place, so a path of one key doesn't allocate.
#[derive(Drop)]
pub(crate) struct Path<'qs> {
    first: Key<'qs>,
    rest: Vec<Key<'qs>>,
    len: usize,
}

impl<'qs> Model for Path<'qs> {
    ghost use Rattle.std.specs.Prelude.{◌≡◌, ◌-◌, List, length};
    ghost use Rattle.qs_tree.specs.declared.tree.key.Key.{Key};
    ghost use Rattle.qs_tree.specs.internal.scan.Paths.{keys_in};

    ghost Value = { List Key };

    ghost view = { λ p. keys_in p.len p.first p.rest.items };

    ghost invariant = { λ p. length p.rest.items ≡ p.len - 1 };
}

impl<'qs> Path<'qs> {
    /// Returns a path without keys. Doesn't allocate.
    pub fn new(alloc: Global) -> Self
        ensures { result ≡ [] }
    {
        Path {
            first: Key::Int(0),
            rest: Vec::new(alloc),
            len: 0,
        }
    }

    /// Returns the number of keys.
    pub fn len(&self) -> usize
        ensures { result ≡ length self.now }
    {
        self.len
    }

    /// Removes all keys.
    #[inline(always)]
    pub fn clear(&mut self)
        ensures { self.new ≡ [] }
    {
        self.rest.clear();
        self.len = 0;
    }

    /// Pushes a key.
    #[inline(always)]
    pub fn push(&mut self, key: Key<'qs>) -> Result<(), AllocError>
        ensures { OnOk result (self.new ≡ self.old ++ key.entry ∷ []) }
    {
        if self.len == 0 {
            self.first = key;
        } else {
            if self.rest.is_empty() {
                self.rest.reserve(FURTHER)?;
            }
            self.rest.push(key)?;
        }
        self.len = self.rest.len() + 1;
        Ok(())
    }

    /// Returns the key at a level.
    #[inline(always)]
    pub fn key(&self, level: usize) -> &Key<'qs>
        requires { level < length self.now }
        ensures key { drop level self.now ≡ result.now ∷ drop (level + 1) self.now }
        ensures fits { level + 1 < 2 ^ 64 }
    {
        if level == 0 {
            &self.first
        } else {
            &self.rest[level - 1]
        }
    }

    /// Takes out the key at a level, and leaves an integer key.
    #[inline(always)]
    pub fn take(&mut self, level: usize) -> Key<'qs>
        requires { level < length self.old }
        ensures key { drop level self.old ≡ result ∷ drop (level + 1) self.new }
        ensures len { length self.new ≡ length self.old }
        ensures fits { level + 1 < 2 ^ 64 }
    {
        if level == 0 {
            mem::replace(&mut self.first, Key::Int(0))
        } else {
            take_at(&mut self.rest, level - 1)
        }
    }

    /// Removes the last key, and returns it.
    #[inline(always)]
    pub fn pop(&mut self) -> Key<'qs>
        requires { 0 < length self.old }
        ensures { self.old ≡ self.new ++ result ∷ [] }
    {
        self.len -= 1;
        match self.rest.pop() {
            Some(key) => key,
            None => mem::replace(&mut self.first, Key::Int(0)),
        }
    }
}

// Takes a key out of a vector, and leaves an integer key.
#[inline(always)]
fn take_at<'qs>(keys: &mut Vec<Key<'qs>>, at: usize) -> Key<'qs>
    requires { at < length keys.old.items }
    ensures key { drop at keys.old.items ≡ result ∷ drop (at + 1) keys.new.items }
    ensures len { length keys.new.items ≡ length keys.old.items }
{
    mem::replace(&mut keys[at], Key::Int(0))
}

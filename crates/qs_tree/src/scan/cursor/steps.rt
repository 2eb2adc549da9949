//! Steps, counted in contracts only.

ghost use Rattle.std.specs.Prelude.{◌≡◌, ℕ, ◌+◌};
ghost use Rattle.std.specs.Borrow.{ftrue};
ghost use Rattle.qs_tree.specs.tree.Keys.{key_cmp};

use crate::tree::key::Key;
use std::cmp::Ordering;
use std::marker::Model;

/// A number of steps. Contracts see a natural number; at run time it has no bytes.
///
/// Only two things add to it: the cursor of a parse, and a comparison of two keys in a search.
///
/// ```
/// let mut steps = Steps::new();
/// map.get_with(&key, &mut steps);
/// ```
#[derive(Drop)]
pub struct Steps {
    ghost count: { ℕ },
}

impl Model for Steps {
    ghost Value = { ℕ };

    ghost view = { λ s. s.count };

    ghost also_owns = { λ _. ftrue };
}

impl Steps {
    /// Returns zero steps. Costs nothing at run time.
    ///
    /// ```
    /// let mut steps = Steps::new();
    /// ```
    pub fn new() -> Steps
        ensures { result ≡ 0 }
    {
        Steps {}
    }

    /// Compares two keys, and adds one step.
    #[inline(always)]
    pub(crate) fn compare<'k, 'qs>(&mut self, key: &Key<'k>, other: &Key<'qs>) -> Ordering
        ensures order { result ≡ key_cmp key.now other.now }
        ensures cost { self.new ≡ self.old + 1 }
    {
        self.add(1);
        key.compare(other)
    }

    /// Adds `taken` steps. Only the cursor can call this.
    pub(super) fn add(&mut self, taken: usize)
        ensures { self.new ≡ self.old + taken }
    {
        *self = Steps::after(self, &taken);
    }

    // Returns the steps `_before` and `_taken` together.
    fn after(_before: &Steps, _taken: &usize) -> Steps
        ensures { result ≡ _before.now + _taken.now }
    {
        Steps {}
    }
}

//! Why a tree isn't read by a shape, and which part of it.

ghost use Rattle.std.specs.Prelude.{◌≡◌, ◌∷◌, IfOk};
ghost use Rattle.qs_spec.specs.Segment.Segment.{Int, Str};
ghost use Rattle.qs_tree.specs.tree.Views.{segment_of_key};
ghost use Rattle.qs_data.specs.declared.failure.failure.Failure.TheVariants.{OutOfMemory};
ghost use Rattle.qs_data.specs.failure.Fails.{error_in};
ghost use Rattle.qs_data.specs.failure.Mismatch.{path_of, segment_of};
ghost use Rattle.qs_data.specs.failure.internal.Failing.{IsUnder};

use crate::failure::mismatch::Mismatch;
use crate::failure::segment::Segment;
use crate::read::ReadError;
use qs_tree::{Error, Key};
use std::alloc::{AllocError, AllocFailed, Global};

/// Why a tree isn't read by a shape, and which part of it. Each level of a tree passes it on, so it is small.
///
/// `?` converts it to an [`Error`] where a caller returns one; that has the message, but not the path.
///
/// ```
/// match read_with_path(alloc, Config::new(), &shape, node) {
///     Ok(data) => Ok(data),
///     Err(Failure::Unread(unread)) => report(&unread.mismatch), // user[age]: expected u8, found the text "x"
///     Err(Failure::OutOfMemory) => Err(Error::OutOfMemory),
/// }
/// ```
#[derive(Drop)]
pub enum Failure {
    /// A part of the tree isn't read.
    Unread(Box<Unread>),
    /// An allocation failed.
    OutOfMemory,
}

/// Which part of a tree isn't read, and the error of reading it.
///
/// ```
/// let error = Error::from(unread.error); // invalid type: string, expected u8
/// ```
#[derive(Drop)]
pub struct Unread {
    /// The part, and what is wrong with it.
    pub mismatch: Mismatch,
    /// The error.
    pub error: ReadError,
}

impl Failure {
    /// Returns the failure of what the item at an index belongs to.
    #[cold]
    #[inline(never)]
    pub(crate) fn at_index(self, alloc: Global, index: usize) -> Failure
        ensures { IsUnder (Int index) self result }
    {
        self.under(alloc, Segment::Index(index))
    }

    /// Returns the failure of what the field with a name belongs to.
    #[cold]
    #[inline(never)]
    pub(crate) fn at_name(self, alloc: Global, name: &str) -> Failure
        ensures { IsUnder (Str name.now) self result }
    {
        match name.as_bytes().to_vec(alloc) {
            Ok(name) => self.under(alloc, Segment::Key(name)),
            Err(_) => Failure::OutOfMemory,
        }
    }

    /// Returns the failure of what the value under a key belongs to.
    #[cold]
    #[inline(never)]
    pub(crate) fn at_key(self, alloc: Global, key: &Key<'_>) -> Failure
        ensures { IsUnder (segment_of_key key.now) self result }
    {
        match Segment::of(alloc, key) {
            Ok(segment) => self.under(alloc, segment),
            Err(_) => Failure::OutOfMemory,
        }
    }

    // Returns the failure with a segment in front of its path, or that there is no memory for it.
    fn under(self, alloc: Global, segment: Segment) -> Failure
        ensures { IsUnder (segment_of segment) self result }
    {
        match self {
            Failure::Unread(unread) => match Box::into_inner(unread).under(alloc, segment) {
                Ok(unread) => Failure::Unread(unread),
                Err(_) => Failure::OutOfMemory,
            },
            Failure::OutOfMemory => Failure::OutOfMemory,
        }
    }
}

impl Unread {
    // Returns the same with a segment in front of the path.
    fn under(self, alloc: Global, segment: Segment) -> Result<Box<Unread>, AllocError>
        ensures path { IfOk result (λ b. path_of b.value.mismatch ≡ segment_of segment ∷ path_of self.mismatch) }
        ensures problem { IfOk result (λ b. b.value.mismatch.problem ≡ self.mismatch.problem) }
        ensures error { IfOk result (λ b. b.value.error ≡ self.error) }
    {
        let Unread { mismatch, error } = self;
        let mismatch = mismatch.under(segment)?;
        Ok(Box::new(alloc, Unread { mismatch, error })?)
    }
}

impl From<Failure> for Error {
    ghost from_gives = { λ failure e. e ≡ error_in failure };

    fn from(failure: Failure) -> Error {
        match failure {
            Failure::Unread(unread) => Error::from(Box::into_inner(unread).error),
            Failure::OutOfMemory => Error::OutOfMemory,
        }
    }
}

impl From<AllocError> for Failure {
    ghost from_gives = { λ _ f. f ≡ OutOfMemory };

    fn from(_failed: AllocError) -> Failure {
        Failure::OutOfMemory
    }
}

impl<T: Drop> From<AllocFailed<T>> for Failure {
    ghost from_gives = { λ _ f. f ≡ OutOfMemory };

    fn from(_failed: AllocFailed<T>) -> Failure {
        Failure::OutOfMemory
    }
}

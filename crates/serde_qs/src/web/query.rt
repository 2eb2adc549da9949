//! The wrapper of the value of a request's query.

ghost use Rattle.std.specs.Prelude.{◌≡◌};
ghost use Rattle.std.specs.Borrow.{Lends, sem};
ghost use Rattle.serde_qs.specs.Wrappers.{with_query};
ghost use Rattle.serde_qs.specs.contracts.web.query.QsQuery.{the_row};

use std::fmt;
use std::fmt::{Debug, Display, Formatter};
use std::ops::{Deref, DerefMut};

/// The value of a request's query.
///
/// It is formatted, compared and cloned as the value inside.
///
/// ```
/// let query: QsQuery<Query> = QsQuery(from_str(alloc, "age=24&name=Alice")?);
/// let age = query.age; // 24
/// ```
#[derive(Clone, Drop, PartialEq, Eq, PartialOrd, Ord)]
pub struct QsQuery<T>(pub T);

impl<T> QsQuery<T> {
    /// Returns the value inside. It doesn't allocate.
    ///
    /// ```
    /// let query = QsQuery(7).into_inner(); // 7
    /// ```
    pub fn into_inner(self) -> T
        ensures { result ≡ self.0 }
    {
        let QsQuery(value) = self;
        value
    }
}

impl<T> Deref for QsQuery<T> {
    type Target = T;

    ghost deref_gives = { λ query value. value ≡ query.0 };

    /// Returns the value inside.
    fn deref(&self) -> &T
        ensures { result.now ≡ self.now.0 }
    {
        &self.0
    }
}

impl<T> DerefMut for QsQuery<T> {
    ghost deref_mut_gives = { λ query value. value ≡ query.0 };

    /// Returns the value inside, which can be changed in place.
    fn deref_mut(&mut self) -> &mut T
        ensures* writes_back { sem 𝓛 (Lends (the_row T.row) T.row self.entry result (with_query self.old)) }
        ensures value { result.now ≡ self.old.0 }
    {
        &mut self.0
    }
}

impl<T: Debug> Debug for QsQuery<T> {
    ghost debug_output = { λ query. T.debug_output query.0 };

    fn fmt<W: fmt::Write>(&self, f: &mut Formatter<W>) -> fmt::Result {
        Debug::fmt(&self.0, f)
    }
}

impl<T: Display> Display for QsQuery<T> {
    ghost output = { λ query. T.output query.0 };

    ghost styled_output = { λ query spec. T.styled_output query.0 spec };

    fn fmt<W: fmt::Write>(&self, f: &mut Formatter<W>) -> fmt::Result {
        Display::fmt(&self.0, f)
    }
}

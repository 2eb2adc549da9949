//! The wrapper of the value of a request's form.

ghost use Rattle.std.specs.Prelude.{◌≡◌};
ghost use Rattle.std.specs.Borrow.{Lends, sem};
ghost use Rattle.serde_qs.specs.Wrappers.{with_form};
ghost use Rattle.serde_qs.specs.contracts.web.form.QsForm.{the_row};

use std::fmt;
use std::fmt::{Debug, Display, Formatter};
use std::ops::{Deref, DerefMut};

/// The value of a request's form.
///
/// It is formatted, compared and cloned as the value inside.
///
/// ```
/// let config = Config::new().use_form_encoding(true);
/// let form: QsForm<Query> = QsForm(config.deserialize_bytes(alloc, body)?);
/// let age = form.age;
/// ```
#[derive(Clone, Drop, PartialEq, Eq, PartialOrd, Ord)]
pub struct QsForm<T>(pub T);

impl<T> QsForm<T> {
    /// Returns the value inside. It doesn't allocate.
    ///
    /// ```
    /// let form = QsForm(7).into_inner(); // 7
    /// ```
    pub fn into_inner(self) -> T
        ensures { result ≡ self.0 }
    {
        let QsForm(value) = self;
        value
    }
}

impl<T> Deref for QsForm<T> {
    type Target = T;

    ghost deref_gives = { λ form value. value ≡ form.0 };

    /// Returns the value inside.
    fn deref(&self) -> &T
        ensures { result.now ≡ self.now.0 }
    {
        &self.0
    }
}

impl<T> DerefMut for QsForm<T> {
    ghost deref_mut_gives = { λ form value. value ≡ form.0 };

    /// Returns the value inside, which can be changed in place.
    fn deref_mut(&mut self) -> &mut T
        ensures* writes_back { sem 𝓛 (Lends (the_row T.row) T.row self.entry result (with_form self.old)) }
        ensures value { result.now ≡ self.old.0 }
    {
        &mut self.0
    }
}

impl<T: Debug> Debug for QsForm<T> {
    ghost debug_output = { λ form. T.debug_output form.0 };

    fn fmt<W: fmt::Write>(&self, f: &mut Formatter<W>) -> fmt::Result {
        Debug::fmt(&self.0, f)
    }
}

impl<T: Display> Display for QsForm<T> {
    ghost output = { λ form. T.output form.0 };

    ghost styled_output = { λ form spec. T.styled_output form.0 spec };

    fn fmt<W: fmt::Write>(&self, f: &mut Formatter<W>) -> fmt::Result {
        Display::fmt(&self.0, f)
    }
}

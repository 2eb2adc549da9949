//! Wrappers of the value of a request's query or form.

mod form;
mod query;

pub use form::QsForm;
pub use query::QsQuery;

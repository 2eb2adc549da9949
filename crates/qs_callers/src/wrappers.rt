//! Wrapped values, compared, copied and changed as the values inside.

ghost use Rattle.std.specs.Prelude.{◌≡◌, IfOk, IfSome, string_bytes};

use serde_qs::web::{QsForm, QsQuery};
use std::alloc::{AllocError, Global};
use std::cmp::Ordering;
use std::fmt::Display;
use std::ops::{Deref, DerefMut};

/// Returns whether two queries are equal.
pub fn is_same_query<T: PartialEq>(a: &QsQuery<T>, b: &QsQuery<T>) -> bool
    ensures { result ≡ T.eq a.now.0 b.now.0 }
{
    a == b
}

/// Returns whether two forms are equal.
pub fn is_same_form<T: PartialEq>(a: &QsForm<T>, b: &QsForm<T>) -> bool
    ensures { result ≡ T.eq a.now.0 b.now.0 }
{
    a == b
}

/// Returns the order of two queries, if they have one.
pub fn partial_order_of_queries<T: PartialOrd>(a: &QsQuery<T>, b: &QsQuery<T>) -> Option<Ordering>
    ensures { result ≡ T.partial_cmp a.now.0 b.now.0 }
{
    a.partial_cmp(b)
}

/// Returns the order of two forms, if they have one.
pub fn partial_order_of_forms<T: PartialOrd>(a: &QsForm<T>, b: &QsForm<T>) -> Option<Ordering>
    ensures { result ≡ T.partial_cmp a.now.0 b.now.0 }
{
    a.partial_cmp(b)
}

/// Returns the order of two queries.
pub fn order_of_queries<T: Ord>(a: &QsQuery<T>, b: &QsQuery<T>) -> Ordering
    ensures { result ≡ T.cmp a.now.0 b.now.0 }
{
    a.cmp(b)
}

/// Returns the order of two forms.
pub fn order_of_forms<T: Ord>(a: &QsForm<T>, b: &QsForm<T>) -> Ordering
    ensures { result ≡ T.cmp a.now.0 b.now.0 }
{
    a.cmp(b)
}

/// Returns a query's copy, without its wrapper.
pub fn copied_query<T: Clone>(query: &QsQuery<T>) -> Result<T, AllocError>
    ensures { IfOk result (T.is_clone query.now.0) }
{
    Ok(query.clone()?.into_inner())
}

/// Returns a form's copy, without its wrapper.
pub fn copied_form<T: Clone>(form: &QsForm<T>) -> Result<T, AllocError>
    ensures { IfOk result (T.is_clone form.now.0) }
{
    Ok(form.clone()?.into_inner())
}

/// Puts another value into a query.
pub fn set_query<T: Drop>(query: &mut QsQuery<T>, value: T)
    ensures { query.new.0 ≡ value }
{
    *query.deref_mut() = value;
}

/// Puts another value into a form.
pub fn set_form<T: Drop>(form: &mut QsForm<T>, value: T)
    ensures { form.new.0 ≡ value }
{
    *form.deref_mut() = value;
}

/// Returns the value of a query.
pub fn query_inside<T>(query: &QsQuery<T>) -> &T
    ensures { result.now ≡ query.now.0 }
{
    query.deref()
}

/// Returns the value of a form.
pub fn form_inside<T>(form: &QsForm<T>) -> &T
    ensures { result.now ≡ form.now.0 }
{
    form.deref()
}

/// Returns the text of a query, which is the text of its value.
pub fn query_text<T: Display>(alloc: Global, query: &QsQuery<T>) -> Result<String, AllocError>
    ensures { IfOk result (λ text. IfSome (T.output query.now.0) (λ bytes. string_bytes text ≡ bytes)) }
{
    query.to_string(alloc)
}

/// Returns the text of a form, which is the text of its value.
pub fn form_text<T: Display>(alloc: Global, form: &QsForm<T>) -> Result<String, AllocError>
    ensures { IfOk result (λ text. IfSome (T.output form.now.0) (λ bytes. string_bytes text ≡ bytes)) }
{
    form.to_string(alloc)
}

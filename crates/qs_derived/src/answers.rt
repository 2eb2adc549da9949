//! What is printed for a case.

use crate::case::Case;
use crate::types::{
    Account, Adjacent, Choice, Contact, Folder, Labels, Listing, Lists, Maps, Named, Numbers,
    Order, Payment, Profile, Shown, Spot, Tagged, Texts, Trip, Units, Wide,
};
use qs_callers as own;
use qs_serde::{ArrayFormat, Error, PathError, Result, explain_str, to_string_with};
use serde::{Deserialize, Serialize};
use serde_qs::ConfigExt;
use std::alloc::{AllocError, Global};
use std::collections::BTreeMap;

/// A line that is printed.
type Line = std::result::Result<String, AllocError>;

// Returns the name of an error's kind.
fn kind(error: &Error) -> &'static str {
    match error {
        Error::Custom(_) => "Custom",
        Error::MaxSerializationDepthExceeded(_) => "MaxSerializationDepthExceeded",
        Error::Parse(_, _) => "Parse",
        Error::Unsupported => "Unsupported",
        Error::FromUtf8(_) => "FromUtf8",
        Error::Io(_) => "Io",
        Error::ParseInt(_) => "ParseInt",
        Error::Utf8(_) => "Utf8",
        Error::OutOfMemory => "OutOfMemory",
        Error::Failed => "Failed",
    }
}

// Returns a text after a `?`, or the kind of the error.
fn word(alloc: Global, text: Result<String>) -> Line {
    match text {
        Ok(text) => format!(in alloc; "?{text}"),
        Err(error) => String::from_str(alloc, kind(&error)),
    }
}

// Returns the texts of a value in each array format, or one text if all are the same.
fn texts(
    alloc: Global,
    indexed: Result<String>,
    pushed: Result<String>,
    repeated: Result<String>,
) -> Line {
    let indexed = word(alloc, indexed)?;
    let pushed = word(alloc, pushed)?;
    let repeated = word(alloc, repeated)?;
    if indexed == pushed && indexed == repeated {
        Ok(indexed)
    } else {
        format!(in alloc; "{indexed} {pushed} {repeated}")
    }
}

// Returns the kind of an error, and the error as it is printed, with `..` in place of further lines.
fn rejection(alloc: Global, kind: &str, printed: &str) -> Line {
    match printed.split_once('\n') {
        Some((first, _)) => format!(in alloc; "{kind} {first} .."),
        None => format!(in alloc; "{kind} {printed}"),
    }
}

// Returns the answer of a type with derives.
fn derived<'a, T: Deserialize<'a> + Serialize>(alloc: Global, case: &Case<'a>) -> Line {
    let config = case.config;
    let read: std::result::Result<T, PathError> = explain_str(alloc, config, case.input);
    match read {
        Ok(value) => texts(
            alloc,
            to_string_with(alloc, config, &value),
            to_string_with(
                alloc,
                config.array_format(ArrayFormat::EmptyIndexed),
                &value,
            ),
            to_string_with(alloc, config.array_format(ArrayFormat::Unindexed), &value),
        ),
        Err(error) => rejection(alloc, kind(&error.error), &error.to_string(alloc)?),
    }
}

// Returns the answer of a type that implements `Compound`.
fn compound<T: serde_qs::Deserialize + serde_qs::Serialize + Drop>(
    alloc: Global,
    case: &Case<'_>,
) -> Line {
    let config = case.config;
    let read: Result<T> = config.deserialize_str(alloc, case.input);
    match read {
        Ok(value) => texts(
            alloc,
            config.serialize_string(alloc, &value),
            config
                .array_format(ArrayFormat::EmptyIndexed)
                .serialize_string(alloc, &value),
            config
                .array_format(ArrayFormat::Unindexed)
                .serialize_string(alloc, &value),
        ),
        Err(error) => rejection(alloc, kind(&error), &error.to_string(alloc)?),
    }
}

/// Returns the answer to a case, of its type with derives.
pub fn by_derive(alloc: Global, case: &Case<'_>) -> Line {
    match case.name {
        "profile" => derived::<Profile>(alloc, case),
        "order" => derived::<Order>(alloc, case),
        "payment" => derived::<Payment>(alloc, case),
        "account" => derived::<Account>(alloc, case),
        "trip" => derived::<Trip>(alloc, case),
        "labels" => derived::<Labels>(alloc, case),
        _ => by_derive_alone(alloc, case),
    }
}

// Returns the answer to a case, of a type that has only derives.
fn by_derive_alone(alloc: Global, case: &Case<'_>) -> Line {
    match case.name {
        "named" => derived::<Named>(alloc, case),
        "listing" => derived::<Listing>(alloc, case),
        "tagged" => derived::<Vec<Tagged>>(alloc, case),
        "spots" => derived::<Vec<Spot>>(alloc, case),
        "adjacent" => derived::<Vec<Adjacent>>(alloc, case),
        "choice" => derived::<Vec<Choice>>(alloc, case),
        "contact" => derived::<Vec<Contact>>(alloc, case),
        "shown" => derived::<Vec<Shown>>(alloc, case),
        "lists" => derived::<Lists>(alloc, case),
        "maps" => derived::<Maps>(alloc, case),
        "numbers" => derived::<Numbers>(alloc, case),
        "units" => derived::<Units>(alloc, case),
        "wide" => derived::<Wide>(alloc, case),
        "texts" => derived::<Texts<'_>>(alloc, case),
        "folder" => derived::<Folder>(alloc, case),
        _ => String::from_str(alloc, "no type"),
    }
}

/// Returns the answer to a case, of its type that implements `Compound`.
pub fn by_compound(alloc: Global, case: &Case<'_>) -> Line {
    match case.name {
        "profile" => compound::<own::Profile>(alloc, case),
        "order" => compound::<own::Order>(alloc, case),
        "payment" => compound::<own::Payment<own::Method>>(alloc, case),
        "account" => compound::<own::Account>(alloc, case),
        "trip" => compound::<own::Pair<own::Span, Vec<own::Place>>>(alloc, case),
        "labels" => compound::<own::Pair<BTreeMap<String, own::Price>, Vec<Option<i8>>>>(
            alloc, case,
        ),
        _ => String::from_str(alloc, "no type"),
    }
}

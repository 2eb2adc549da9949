//! Enums by a tag, by a tag and a content, without a name, and with variants that hold structs and maps.

use super::named::Shown;
use super::plain::Sort;
use serde::{Deserialize, Serialize};
use std::collections::BTreeMap;

#[derive(Drop, Serialize, Deserialize)]
#[serde(tag = "type", rename_all = "lowercase")]
pub enum Tagged {
    Cash,
    #[serde(alias = "credit", rename_all = "camelCase")]
    Card {
        number: String,
        owner_name: Option<String>,
    },
    Bank {
        year: u16,
    },
    #[serde(other)]
    Other,
}

#[derive(Drop, Serialize, Deserialize)]
#[serde(tag = "kind", rename_all = "camelCase")]
pub enum Spot {
    Anywhere,
    #[serde(rename_all = "camelCase")]
    OnMap {
        map_name: String,
        zoom: Option<String>,
    },
}

#[derive(Drop, Serialize, Deserialize)]
#[serde(tag = "t", content = "c")]
pub enum Adjacent {
    Nothing,
    One(u8),
    Pair(String, u8),
    Named { a: u8, b: String },
    Size { width: Option<u8> },
    Held(Shown),
}

#[derive(Drop, Serialize, Deserialize)]
#[serde(untagged)]
pub enum Choice {
    Two(String, String),
    Flag(bool),
    Shown(Shown),
    Sort(Sort),
    Many(Vec<String>),
    Map(BTreeMap<String, String>),
    Text(String),
}

#[derive(Drop, Serialize, Deserialize)]
pub enum Contact {
    Nobody,
    Shown(Shown),
    Phone { number: Option<String> },
    Map(BTreeMap<String, u8>),
}

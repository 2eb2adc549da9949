//! Attributes of fields.

use serde::{Deserialize, Serialize};

#[derive(Drop, Serialize, Deserialize)]
#[serde(rename_all = "camelCase")]
pub struct Named {
    first_name: String,
    #[serde(rename = "n", alias = "count")]
    number: u64,
    #[serde(default = "ten")]
    page_size: u32,
    #[serde(skip_serializing_if = "Option::is_none")]
    last_page: Option<u16>,
    #[serde(default, skip_serializing_if = "Vec::is_empty", rename(serialize = "tag", deserialize = "tags"))]
    tags: Vec<String>,
    #[serde(default, skip_serializing)]
    token: u8,
    #[serde(skip)]
    hidden: u8,
}

fn ten() -> u32 {
    10
}

#[derive(Drop, Serialize, Deserialize)]
pub struct Shown {
    first: String,
    last: Option<String>,
    size: Option<u8>,
}

#[derive(Drop, Serialize, Deserialize)]
pub struct Listing {
    text: String,
    #[serde(flatten)]
    shown: Shown,
}

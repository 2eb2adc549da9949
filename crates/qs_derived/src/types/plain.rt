//! The types of `qs_callers`.

use serde::{Deserialize, Serialize};
use std::collections::BTreeMap;

#[derive(Drop, Serialize, Deserialize)]
pub enum Sort {
    Relevance,
    By(String),
    Between { from: u32, to: u32 },
}

#[derive(Drop, Serialize, Deserialize)]
pub struct Profile {
    name: String,
    age: u8,
    city: String,
    zip: u32,
    langs: Vec<String>,
    sort: Sort,
    size: Option<u16>,
    dark: bool,
    news: bool,
    visits: u64,
}

#[derive(Drop, Serialize, Deserialize)]
pub struct Address {
    street: String,
    city: String,
}

#[derive(Drop, Serialize, Deserialize)]
pub struct Order {
    name: String,
    address: Address,
    items: Vec<u32>,
}

#[derive(Drop, Serialize, Deserialize)]
#[serde(deny_unknown_fields)]
pub enum Method {
    Cash,
    Card { number: String, year: u16 },
}

#[derive(Drop, Serialize, Deserialize)]
#[serde(deny_unknown_fields)]
pub struct Payment {
    amount: u32,
    method: Method,
}

#[derive(Drop, Serialize, Deserialize)]
#[serde(transparent)]
pub struct Id {
    number: u32,
}

#[derive(Drop, Serialize, Deserialize)]
#[serde(rename_all = "camelCase")]
pub struct Account {
    first_name: String,
    last_name: String,
    #[serde(rename = "user-id")]
    id: Id,
}

#[derive(Drop, Serialize, Deserialize)]
pub struct Span(u32, u32);

#[derive(Drop, Serialize, Deserialize)]
pub enum Place {
    Anywhere,
    At(i32, i32),
}

#[derive(Drop, Serialize, Deserialize)]
pub struct Trip {
    a: Span,
    b: Vec<Place>,
}

#[derive(Drop, Serialize, Deserialize)]
pub struct Price(u32);

#[derive(Drop, Serialize, Deserialize)]
pub struct Labels {
    a: BTreeMap<String, Price>,
    b: Vec<Option<i8>>,
}

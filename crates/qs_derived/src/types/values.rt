//! Values of one text.

use super::dashed;
use serde::{Deserialize, Serialize};
use std::borrow::CowStr;

#[derive(Drop, Serialize, Deserialize)]
pub struct Numbers {
    f: f64,
    g: f32,
    c: char,
    i: i8,
    u: u32,
    o: Option<bool>,
}

#[derive(Drop, Serialize, Deserialize)]
pub struct Mark;

#[derive(Drop, Serialize, Deserialize)]
pub struct Units {
    u: (),
    m: Mark,
    o: Option<u8>,
}

#[derive(Drop, Serialize, Deserialize)]
pub struct Wide {
    i: i128,
    u: u128,
}

#[derive(Clone, Copy, Serialize, Deserialize)]
#[serde(try_from = "u16", into = "u16")]
pub struct Percent(u16);

impl TryFrom<u16> for Percent {
    type Error = &'static str;

    fn try_from(value: u16) -> Result<Percent, &'static str> {
        if value <= 100 {
            Ok(Percent(value))
        } else {
            Err("above 100")
        }
    }
}

impl From<Percent> for u16 {
    fn from(percent: Percent) -> u16 {
        percent.0
    }
}

#[derive(Drop, Serialize, Deserialize)]
pub struct Texts<'a> {
    name: &'a str,
    #[serde(borrow)]
    title: CowStr<'a>,
    #[serde(with = "dashed")]
    range: (u8, u8),
    off: Percent,
}

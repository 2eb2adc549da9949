//! Lists, tuples, arrays and maps.

use serde::{Deserialize, Serialize};
use std::collections::{BTreeMap, HashMap};

#[derive(Drop, Serialize, Deserialize)]
#[serde(default)]
pub struct Point {
    x: u8,
    y: Option<u8>,
}

impl Default for Point {
    fn default() -> Point {
        Point { x: 7, y: None }
    }
}

#[derive(Drop, Serialize, Deserialize)]
pub struct Lists {
    t: (u8, String, bool),
    a: [u8; 2],
    b: Box<Point>,
    l: Vec<Point>,
    n: Vec<Vec<u8>>,
}

#[derive(Drop, PartialEq, Eq, PartialOrd, Ord, Serialize, Deserialize)]
pub enum Day {
    Monday,
    Tuesday,
}

#[derive(Drop, Serialize, Deserialize)]
pub struct Maps {
    h: HashMap<String, u8>,
    m: BTreeMap<i32, Vec<Option<u8>>>,
    d: BTreeMap<Day, String>,
}

#[derive(Drop, Serialize, Deserialize)]
#[serde(recursive)]
pub struct Folder {
    name: String,
    #[serde(recursive, default)]
    inside: Vec<Folder>,
}

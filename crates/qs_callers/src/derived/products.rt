//! A page of products that were searched for.

use qs_serde::{Result, from_str, to_string};
use serde::{Deserialize, Serialize};
use std::alloc::Global;
use std::collections::BTreeMap;

/// Which products are shown, and the page of them.
#[derive(Debug, PartialEq, Drop, Serialize, Deserialize)]
pub struct Products {
    /// What a product has to be, for example its colour: `filter[colour]=red`.
    pub filter: BTreeMap<String, String>,
    /// What it costs: `price[from]=10&price[to]=20`.
    #[serde(skip_serializing_if = "Option::is_none")]
    pub price: Option<Range>,
    /// The shops that sell it: `shops=1,2,3`.
    #[serde(with = "qs_serde::helpers::comma_separated")]
    pub shops: Vec<u32>,
    /// The number of the page, from 1.
    #[serde(skip_serializing_if = "Option::is_none")]
    pub page: Option<u32>,
}

/// The numbers from one to another.
#[derive(Debug, PartialEq, Drop, Serialize, Deserialize)]
pub struct Range {
    pub from: u32,
    pub to: u32,
}

/// Returns the querystring of the next page. A page without a number is the first.
pub fn next_page(alloc: Global, input: &str) -> Result<String> {
    let mut products: Products = from_str(alloc, input)?;
    products.page = Some(products.page.unwrap_or(1).saturating_add(1));
    to_string(alloc, &products)
}

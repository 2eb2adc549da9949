//! A page of products that were searched for.

ghost use Rattle.std.specs.Prelude.{◌≡◌, IfOk, string_bytes};
ghost use Rattle.qs_spec.specs.Config.{default};
ghost use Rattle.qs_callers.specs.Products.{page_after, turned};
ghost use Rattle.qs_callers.specs.declared.products.Products.{Products};
ghost use Rattle.qs_callers.specs.declared.products.TheConstants.{NAMES};
ghost use Rattle.serde_qs.specs.PartTables.{made_of};
ghost use Rattle.serde_qs.specs.Typed.{IsRead};
ghost use Rattle.serde_qs.specs.WrittenText.{text_of};

use crate::range::Range;
use serde_qs::{
    Comma, Compound, Delimited, Deserialize, Optional, Out, Parts, Result, Serialize, Shape,
    Source, Struct, WriteResult, fields, from_str, to_string,
};
use std::alloc::Global;
use std::collections::BTreeMap;

/// Which products are shown, and the page of them.
#[derive(Debug, PartialEq, Drop)]
pub struct Products {
    /// What a product has to be, for example its colour: `filter[colour]=red`.
    pub filter: BTreeMap<String, String>,
    /// What it costs: `price[from]=10&price[to]=20`.
    pub price: Option<Range>,
    /// The shops that sell it: `shops=1,2,3`.
    pub shops: Delimited<u32, Comma>,
    /// The number of the page, from 1.
    pub page: Option<u32>,
}

type ProductsParts = Struct<(BTreeMap<String, String>, (Optional<Range>, Rest))>;

type Rest = (Delimited<u32, Comma>, (Optional<u32>, ()));

const NAMES: &[&str] = &["filter", "price", "shops", "page"];

impl Compound for Products {
    ghost table = { made_of ⟦<ProductsParts as Parts>⟧.table NAMES.now (λ p. record { 0 = (p.filter, (record { 0 = p.price }, (p.shops, (record { 0 = p.page }, tt)))) }) _ };

    fn parts_shape(alloc: Global) -> Result<Shape> {
        ProductsParts::shape(alloc, NAMES)
    }

    fn read(source: Source) -> Result<Products> {
        let Struct(fields!(filter, price?, shops, page?)) = ProductsParts::read(source, NAMES)?;
        Ok(Products {
            filter,
            price,
            shops,
            page,
        })
    }

    fn write_parts(&self, out: Out) -> WriteResult {
        out.fields(NAMES, fields!(self; filter, price?, shops, page?))
    }
}

/// Returns the querystring of the next page.
pub fn next_page(alloc: Global, input: &str) -> Result<String>
    ensures { IfOk result (λ text. (found : Products) × IsRead default ⟦<Products as Deserialize>⟧.table.shape ⟦<Products as Deserialize>⟧.table.meaning input.now (⟦<Products as Deserialize>⟧.table.value found)
        × (string_bytes text ≡ text_of default (⟦<Products as Serialize>⟧.datum (turned found)))) }
{
    let mut products: Products = from_str(alloc, input)?;
    products.page = Some(page_after(products.page));
    to_string(alloc, &products)
}

// Returns the number of the page after one. Without a number it is the first.
fn page_after(page: Option<u32>) -> u32
    ensures { result ≡ page_after page }
{
    page.unwrap_or(1).saturating_add(1)
}

//! A listing: a struct of four fields, one of them an enum.

ghost use Rattle.qs_callers.specs.declared.listing.TheConstants.{NAMES};
ghost use Rattle.serde_qs.specs.PartTables.{made_of};

use crate::sort::Sort;
use serde_qs::{Compound, Out, Parts, Result, Shape, Source, Struct, WriteResult, fields};
use std::alloc::Global;

/// A page of what was found.
#[derive(Debug, PartialEq, Drop)]
pub struct Listing {
    pub text: String,
    pub page: u32,
    pub sort: Sort,
    pub is_short: bool,
}

type ListingParts = Struct<(String, (u32, (Sort, (bool, ()))))>;

const NAMES: &[&str] = &["text", "page", "sort", "short"];

impl Compound for Listing {
    ghost table = { made_of ⟦<ListingParts as Parts>⟧.table NAMES.now (λ listing. record { 0 = (listing.text, (listing.page, (listing.sort, (listing.is_short, tt)))) }) _ };

    fn parts_shape(alloc: Global) -> Result<Shape> {
        ListingParts::shape(alloc, NAMES)
    }

    fn read(source: Source) -> Result<Listing> {
        let Struct((text, (page, (sort, (is_short, ()))))) = ListingParts::read(source, NAMES)?;
        Ok(Listing {
            text,
            page,
            sort,
            is_short,
        })
    }

    fn write_parts(&self, out: Out) -> WriteResult {
        out.fields(NAMES, fields!(self; text, page, sort, is_short))
    }
}

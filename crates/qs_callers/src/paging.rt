//! Which page is shown: a struct with fields that have defaults.

ghost use Rattle.qs_callers.specs.declared.paging.TheConstants.{NAMES};
ghost use Rattle.serde_qs.specs.PartTables.{made_of};
ghost use Rattle.std.specs.Prelude.{[]};
ghost use Rattle.qs_spec.specs.Data as d;

use serde_qs::{
    Compound, Defaulted, Newtype, OrDefault, Out, Parts, Result, Shape, Source, Struct,
    WriteResult, fields,
};
use std::alloc::Global;

/// The number of a page, 1 if it is missing.
#[derive(Debug, PartialEq, Drop)]
pub struct Page(pub u32);

type PageParts = Newtype<u32>;

impl Compound for Page {
    ghost table = { made_of ⟦<PageParts as Parts>⟧.table [] (λ page. record { 0 = page.0 }) _ };

    fn parts_shape(alloc: Global) -> Result<Shape> {
        PageParts::shape(alloc, &[])
    }

    fn read(source: Source) -> Result<Page> {
        let Newtype(number) = PageParts::read(source, &[])?;
        Ok(Page(number))
    }

    fn write_parts(&self, out: Out) -> WriteResult {
        out.newtype(&self.0)
    }
}

impl OrDefault for Page {
    ghost default = { d.newtype (d.unsigned 1) };

    fn missing(_alloc: Global) -> Result<Page> {
        Ok(Page(1))
    }
}

/// Which page is shown, and how.
#[derive(Debug, PartialEq, Drop)]
pub struct Paging {
    pub text: String,
    pub page: Page,
    pub is_short: bool,
}

type PagingParts = Struct<(String, (Defaulted<Page>, (Defaulted<bool>, ())))>;

const NAMES: &[&str] = &["text", "page", "short"];

impl Compound for Paging {
    ghost table = { made_of ⟦<PagingParts as Parts>⟧.table NAMES.now (λ paging. record { 0 = (paging.text, (record { 0 = paging.page }, (record { 0 = paging.is_short }, tt))) }) _ };

    fn parts_shape(alloc: Global) -> Result<Shape> {
        PagingParts::shape(alloc, NAMES)
    }

    fn read(source: Source) -> Result<Paging> {
        let Struct((text, (Defaulted(page), (Defaulted(is_short), ())))) = PagingParts::read(
            source, NAMES,
        )?;
        Ok(Paging {
            text,
            page,
            is_short,
        })
    }

    fn write_parts(&self, out: Out) -> WriteResult {
        out.fields(NAMES, fields!(self; text, page, is_short))
    }
}

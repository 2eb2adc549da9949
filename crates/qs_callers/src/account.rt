//! An account, whose fields have other names in a querystring.

ghost use Rattle.qs_callers.specs.declared.account.TheConstants.{NAMES};
ghost use Rattle.serde_qs.specs.PartTables.{made_of};

use serde_qs::{Compound, Out, Parts, Result, Shape, Source, Struct, WriteResult};
use std::alloc::Global;

/// An account.
#[derive(Debug, PartialEq, Drop)]
pub struct Account {
    pub first_name: String,
    pub last_name: String,
    pub id: u32,
}

type AccountParts = Struct<(String, (String, (u32, ())))>;

const NAMES: &[&str] = &["firstName", "lastName", "user-id"];

impl Compound for Account {
    ghost table = { made_of ⟦<AccountParts as Parts>⟧.table NAMES.now (λ account. record { 0 = (account.first_name, (account.last_name, (account.id, tt))) }) _ };

    fn parts_shape(alloc: Global) -> Result<Shape> {
        AccountParts::shape(alloc, NAMES)
    }

    fn read(source: Source) -> Result<Account> {
        let Struct((first_name, (last_name, (id, ())))) = AccountParts::read(source, NAMES)?;
        Ok(Account {
            first_name,
            last_name,
            id,
        })
    }

    fn write_parts(&self, out: Out) -> WriteResult {
        out.fields(NAMES, (&self.first_name, (&self.last_name, (&self.id, ()))))
    }
}

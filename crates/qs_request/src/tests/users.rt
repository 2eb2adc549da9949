//! Structs of one field.

ghost use Rattle.qs_request.specs.declared.tests.users.TheConstants.{USERS_NAMES, NOTE_NAMES};
ghost use Rattle.serde_qs.specs.PartTables.{made_of};

use serde_qs::{Compound, Out, Parts, Result, Shape, Source, Struct, WriteResult};
use std::alloc::Global;

/// A list of numbers.
#[derive(Drop)]
pub struct Users {
    pub id: Vec<u64>,
}

type UsersParts = Struct<(Vec<u64>, ())>;

const USERS_NAMES: &[&str] = &["id"];

impl Compound for Users {
    ghost table = { made_of ⟦<UsersParts as Parts>⟧.table USERS_NAMES.now (λ users. record { 0 = (users.id, tt) }) _ };

    fn parts_shape(alloc: Global) -> Result<Shape> {
        UsersParts::shape(alloc, USERS_NAMES)
    }

    fn read(source: Source) -> Result<Users> {
        let Struct((id, ())) = UsersParts::read(source, USERS_NAMES)?;
        Ok(Users { id })
    }

    fn write_parts(&self, out: Out) -> WriteResult {
        out.fields(USERS_NAMES, (&self.id, ()))
    }
}

/// A text that may be absent.
#[derive(Drop)]
pub struct Note {
    pub note: Option<String>,
}

type NoteParts = Struct<(Option<String>, ())>;

const NOTE_NAMES: &[&str] = &["note"];

impl Compound for Note {
    ghost table = { made_of ⟦<NoteParts as Parts>⟧.table NOTE_NAMES.now (λ note. record { 0 = (note.note, tt) }) _ };

    fn parts_shape(alloc: Global) -> Result<Shape> {
        NoteParts::shape(alloc, NOTE_NAMES)
    }

    fn read(source: Source) -> Result<Note> {
        let Struct((note, ())) = NoteParts::read(source, NOTE_NAMES)?;
        Ok(Note { note })
    }

    fn write_parts(&self, out: Out) -> WriteResult {
        out.fields(NOTE_NAMES, (&self.note, ()))
    }
}

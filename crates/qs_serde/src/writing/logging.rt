//! What is kept of an event, and the texts that need a buffer.

ghost use Rattle.std.specs.Prelude.{◌≡◌, ℕ, List, OnErr, OnOk, IfSome};
ghost use Rattle.qs_spec.specs.Config.{Config as Settings};
ghost use Rattle.serde.specs.Event.{Event, Logs};
ghost use Rattle.serde.specs.Spelling.{spelled};
ghost use Rattle.serde.specs.declared.name.NameKind.TheVariants.{Variant};
ghost use Rattle.qs_serde.specs.Sent.{key_sent, sent, text_sent};
ghost use Rattle.qs_serde.specs.Placed.{Moves, IsSent};
ghost use Rattle.qs_serde.specs.Noted.{IsNoted, event_of};
ghost use Rattle.qs_serde.specs.Noted.{Follows};
ghost use Rattle.qs_serde.specs.declared.writing.frame.Next.TheVariants.{Nothing};
ghost use Rattle.qs_serde.specs.declared.writing.position.Position.{Position as At};

use super::frame::Next;
use super::halt::Halt;
use super::log::{Log, Note};
use super::position::Position;
use qs_data::{Scalar, Stop};
use ryu::{Buffer, Float};
use serde::{Case, NameKind};
use std::fmt::{Display, Write};

/// Keeps an event with the result of writing it. After an error nothing more is written.
#[inline(always)]
pub(crate) fn keep(
    position: &mut Position,
    log: &mut Log,
    made: Result<(), Halt>,
    note: &Note<'_>,
) -> Result<(), Halt>
    ensures logs { OnOk result (IfSome (event_of note.now) (λ e. Logs log.old.events log.new.events e)) }
    ensures kept { OnErr result ((log.new.events ≡ log.old.events) × (position.new.next ≡ Nothing)) }
    ensures sends { (before : At) (e : Event) → Moves (λ config. sent config e) made before position.old → IsSent e result before position.new }
    ensures follows { (config : Settings) (before : At) (e : Event) → IsNoted note.now e → Moves (λ config. sent config e) made before position.old
        → Follows config log.old.events before → Follows config log.new.events position.new }
{
    match made {
        Ok(()) => {
            *log = log.then(note);
            Ok(())
        }
        Err(halt) => {
            position.next = Next::Nothing;
            Err(halt)
        }
    }
}

/// Writes a variant's name in a case.
pub(crate) fn variant(
    position: &mut Position,
    room: &mut String,
    name: &str,
    case: Case,
) -> Result<(), Halt>
    ensures { Moves (λ config s. text_sent config (spelled case Variant name.now) s) result position.old position.new }
{
    if let Case::AsIs = case {
        return position.scalar(Scalar::Bytes(name.as_bytes()));
    }
    room.clear();
    case.append(NameKind::Variant, name, room)?;
    position.scalar(Scalar::Bytes(room.as_bytes()))
}

/// Extends the path by a name in a case.
#[inline(always)]
pub(crate) fn key(
    position: &mut Position,
    room: &mut String,
    kind: NameKind,
    name: &str,
    case: Case,
) -> Result<(), Halt>
    ensures { Moves (λ config s. key_sent config (spelled case kind name.now) s) result position.old position.new }
{
    if let Case::AsIs = case {
        return position.key(name.as_bytes());
    }
    spelled_key(position, room, kind, name, case)
}

// Extends the path by a name as a case spells it.
#[inline(never)]
fn spelled_key(
    position: &mut Position,
    room: &mut String,
    kind: NameKind,
    name: &str,
    case: Case,
) -> Result<(), Halt>
    ensures { Moves (λ config s. key_sent config (spelled case kind name.now) s) result position.old position.new }
{
    room.clear();
    case.append(kind, name, room)?;
    position.key(room.as_bytes())
}

/// Writes a float with the fewest digits that are read back as it, as the Rust crate does.
pub(crate) fn float<F: Float>(position: &mut Position, value: F) -> Result<(), Halt>
    ensures { (bytes : List ℕ) × Moves (λ config s. text_sent config bytes s) result position.old position.new }
{
    let mut buffer = Buffer::new();
    let text = buffer.format(value);
    position.scalar(Scalar::Bytes(text.as_bytes()))
}

/// Writes what a value prints.
pub(crate) fn printed<T: Display>(
    position: &mut Position,
    room: &mut String,
    value: &T,
) -> Result<(), Halt>
    ensures { (bytes : List ℕ) × Moves (λ config s. text_sent config bytes s) result position.old position.new }
{
    room.clear();
    if write!(room, "{value}").is_err() {
        return Err(Halt::Stopped(Stop::OutOfMemory));
    }
    position.scalar(Scalar::Bytes(room.as_bytes()))
}

//! The events that serde sends.

ghost use Rattle.std.specs.Prelude.{ℕ, List, OnOk};
ghost use Rattle.serde.specs.Event.{Logs, boolean, signed, unsigned, single, double, character, text, octets, nothing, unit_variant, seq_begins, seq_ends, map_begins, map_ends, field_key, variant_key, key_begins, key_ends, flattens};
ghost use Rattle.qs_serde.specs.Halts.{IsHaltSaying};
ghost use Rattle.qs_serde.specs.Placed.{IsSent};

use super::halt::Halt;
use super::log::Note;
use super::logging::{float, keep, key, printed, variant};
use super::text::{Settings, TextSerializer};
use itoa::Buffer;
use qs_data::Scalar;
use serde::{Case, NameKind, Serializer};
use std::fmt::Display;

impl<K: Settings> Serializer for TextSerializer<K> {
    type Error = Halt;

    ghost written = { λ s. s.log.events };

    fn bool(&mut self, v: bool) -> Result<(), Halt>
        ensures logs { OnOk result (Logs self.old.log.events self.new.log.events (boolean v)) }
        ensures sent { IsSent (boolean v) result self.old.position self.new.position }
    {
        let made = self.position.scalar(Scalar::Bool(v));
        keep(&mut self.position, &mut self.log, made, &Note::Bool(v))
    }

    fn i64(&mut self, v: i64) -> Result<(), Halt>
        ensures logs { OnOk result (Logs self.old.log.events self.new.log.events (signed v)) }
        ensures sent { IsSent (signed v) result self.old.position self.new.position }
    {
        let made = self.position.scalar(Scalar::Signed(v));
        keep(&mut self.position, &mut self.log, made, &Note::I64(v))
    }

    fn u64(&mut self, v: u64) -> Result<(), Halt>
        ensures logs { OnOk result (Logs self.old.log.events self.new.log.events (unsigned v)) }
        ensures sent { IsSent (unsigned v) result self.old.position self.new.position }
    {
        let made = self.position.scalar(Scalar::Unsigned(v));
        keep(&mut self.position, &mut self.log, made, &Note::U64(v))
    }

    fn i128(&mut self, v: i128) -> Result<(), Halt>
        ensures logs { OnOk result (Logs self.old.log.events self.new.log.events (signed v)) }
        ensures sent { IsSent (signed v) result self.old.position self.new.position }
    {
        let made = self
            .position
            .scalar(Scalar::Bytes(Buffer::new().format(v).as_bytes()));
        keep(&mut self.position, &mut self.log, made, &Note::I128(v))
    }

    fn u128(&mut self, v: u128) -> Result<(), Halt>
        ensures logs { OnOk result (Logs self.old.log.events self.new.log.events (unsigned v)) }
        ensures sent { IsSent (unsigned v) result self.old.position self.new.position }
    {
        let made = self
            .position
            .scalar(Scalar::Bytes(Buffer::new().format(v).as_bytes()));
        keep(&mut self.position, &mut self.log, made, &Note::U128(v))
    }

    fn f32(&mut self, v: f32) -> Result<(), Halt>
        ensures logs { OnOk result (Logs self.old.log.events self.new.log.events (single v)) }
        ensures sent { (bytes : List ℕ) × IsSent (text bytes) result self.old.position self.new.position }
    {
        let made = float(&mut self.position, v);
        keep(&mut self.position, &mut self.log, made, &Note::Single(v))
    }

    fn f64(&mut self, v: f64) -> Result<(), Halt>
        ensures logs { OnOk result (Logs self.old.log.events self.new.log.events (double v)) }
        ensures sent { (bytes : List ℕ) × IsSent (text bytes) result self.old.position self.new.position }
    {
        let made = float(&mut self.position, v);
        keep(&mut self.position, &mut self.log, made, &Note::Double(v))
    }

    fn char(&mut self, v: char) -> Result<(), Halt>
        ensures logs { OnOk result (Logs self.old.log.events self.new.log.events (character v)) }
        ensures sent { IsSent (character v) result self.old.position self.new.position }
    {
        let made = self.position.scalar(Scalar::Char(v));
        keep(&mut self.position, &mut self.log, made, &Note::Char(v))
    }

    fn str(&mut self, v: &str) -> Result<(), Halt>
        ensures logs { OnOk result (Logs self.old.log.events self.new.log.events (text v.now)) }
        ensures sent { IsSent (text v.now) result self.old.position self.new.position }
    {
        let made = self.position.scalar(Scalar::Bytes(v.as_bytes()));
        keep(&mut self.position, &mut self.log, made, &Note::Text(v))
    }

    fn bytes(&mut self, v: &[u8]) -> Result<(), Halt>
        ensures logs { OnOk result (Logs self.old.log.events self.new.log.events (octets v.now)) }
        ensures sent { IsSent (octets v.now) result self.old.position self.new.position }
    {
        let made = self.position.scalar(Scalar::Bytes(v));
        keep(&mut self.position, &mut self.log, made, &Note::Bytes(v))
    }

    // serde sends the same event for `None` and `()`. Both are written as no value.
    fn unit(&mut self) -> Result<(), Halt>
        ensures logs { OnOk result (Logs self.old.log.events self.new.log.events nothing) }
        ensures sent { IsSent nothing result self.old.position self.new.position }
    {
        let made = self.position.nothing();
        keep(&mut self.position, &mut self.log, made, &Note::Unit)
    }

    fn str_cased(&mut self, name: &str, case: Case) -> Result<(), Halt>
        ensures logs { OnOk result (Logs self.old.log.events self.new.log.events (unit_variant name.now case)) }
        ensures sent { IsSent (unit_variant name.now case) result self.old.position self.new.position }
    {
        let made = variant(&mut self.position, &mut self.room, name, case);
        keep(
            &mut self.position,
            &mut self.log,
            made,
            &Note::UnitVariant(name, case),
        )
    }

    fn begin_seq(&mut self, len: Option<usize>) -> Result<(), Halt>
        ensures logs { OnOk result (Logs self.old.log.events self.new.log.events (seq_begins len)) }
        ensures sent { IsSent (seq_begins len) result self.old.position self.new.position }
    {
        let made = self.position.begin_seq();
        keep(
            &mut self.position,
            &mut self.log,
            made,
            &Note::BeginSeq(len),
        )
    }

    fn end_seq(&mut self) -> Result<(), Halt>
        ensures logs { OnOk result (Logs self.old.log.events self.new.log.events seq_ends) }
        ensures sent { IsSent seq_ends result self.old.position self.new.position }
    {
        let made = self.position.end_seq();
        keep(&mut self.position, &mut self.log, made, &Note::EndSeq)
    }

    fn begin_map(&mut self, len: Option<usize>) -> Result<(), Halt>
        ensures logs { OnOk result (Logs self.old.log.events self.new.log.events (map_begins len)) }
        ensures sent { IsSent (map_begins len) result self.old.position self.new.position }
    {
        let made = self.position.begin_map();
        keep(
            &mut self.position,
            &mut self.log,
            made,
            &Note::BeginMap(len),
        )
    }

    fn end_map(&mut self) -> Result<(), Halt>
        ensures logs { OnOk result (Logs self.old.log.events self.new.log.events map_ends) }
        ensures sent { IsSent map_ends result self.old.position self.new.position }
    {
        let made = self.position.end_map();
        keep(&mut self.position, &mut self.log, made, &Note::EndMap)
    }

    fn key_cased(&mut self, name: &str, case: Case) -> Result<(), Halt>
        ensures logs { OnOk result (Logs self.old.log.events self.new.log.events (field_key name.now case)) }
        ensures sent { IsSent (field_key name.now case) result self.old.position self.new.position }
    {
        let made = key(
            &mut self.position,
            &mut self.room,
            NameKind::Field,
            name,
            case,
        );
        keep(
            &mut self.position,
            &mut self.log,
            made,
            &Note::FieldKey(name, case),
        )
    }

    fn variant_key(&mut self, name: &str, case: Case) -> Result<(), Halt>
        ensures logs { OnOk result (Logs self.old.log.events self.new.log.events (variant_key name.now case)) }
        ensures sent { IsSent (variant_key name.now case) result self.old.position self.new.position }
    {
        let made = key(
            &mut self.position,
            &mut self.room,
            NameKind::Variant,
            name,
            case,
        );
        keep(
            &mut self.position,
            &mut self.log,
            made,
            &Note::VariantKey(name, case),
        )
    }

    fn begin_key(&mut self) -> Result<(), Halt>
        ensures logs { OnOk result (Logs self.old.log.events self.new.log.events key_begins) }
        ensures sent { IsSent key_begins result self.old.position self.new.position }
    {
        let made = self.position.begin_key();
        keep(&mut self.position, &mut self.log, made, &Note::BeginKey)
    }

    fn end_key(&mut self) -> Result<(), Halt>
        ensures logs { OnOk result (Logs self.old.log.events self.new.log.events key_ends) }
        ensures sent { IsSent key_ends result self.old.position self.new.position }
    {
        let made = self.position.end_key();
        keep(&mut self.position, &mut self.log, made, &Note::EndKey)
    }

    fn flatten_next(&mut self) -> Result<(), Halt>
        ensures logs { OnOk result (Logs self.old.log.events self.new.log.events flattens) }
        ensures sent { IsSent flattens result self.old.position self.new.position }
    {
        let made = self.position.flatten();
        keep(&mut self.position, &mut self.log, made, &Note::Flatten)
    }

    fn custom(&self, message: &str) -> Halt
        ensures { IsHaltSaying message.now result }
    {
        self.position.rejected(message)
    }

    fn collect_str<T: Display>(&mut self, value: &T) -> Result<(), Halt>
        ensures { (bytes : List ℕ) × IsSent (text bytes) result self.old.position self.new.position }
    {
        let made = printed(&mut self.position, &mut self.room, value);
        keep(&mut self.position, &mut self.log, made, &Note::Printed)
    }
}

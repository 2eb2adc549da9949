//! Where in a value the next part goes, and how each event moves the position.

ghost use Rattle.std.specs.Prelude.{◌≡◌, ◌↔◌, ℕ, List, [], Option, IsOk, IfOk, Some, option_map};
ghost use Rattle.qs_spec.specs.Config.{Config as Settings, element_segment};
ghost use Rattle.qs_spec.specs.Entry.{one};
ghost use Rattle.qs_data.specs.write.Parts.{WritesPart, state_of};
ghost use Rattle.qs_data.specs.write.Scalars.{scalar_text};
ghost use Rattle.qs_serde.specs.Sent.{State, start, ends, ends_as, puts, put_value, opened, closes, goes_under, under_index, goes_to_value, goes_on, text_sent, nothing_sent, seq_sent, map_sent, seq_ended, map_ended, key_sent, key_ended_at};
ghost use Rattle.qs_serde.specs.Halts.{IsHaltSaying};
ghost use Rattle.qs_serde.specs.Placed.{Stands, Goes, Moves};
ghost use Rattle.qs_serde.specs.declared.writing.frame.Next.TheVariants.{Value, Key, Flattened};

use super::frame::{Frame, FrameKind, Next};
use super::frames::Frames;
use super::halt::Halt;
use qs_data::{Scalar, Stop, WriteResult, Writer};
use qs_tree::{ArrayFormat, Config};
use std::alloc::Global;

/// What was written, and where in the value the next part goes.
#[derive(Drop)]
pub(crate) struct Position {
    pub(crate) writer: Writer,
    /// The list or map that is open, or the top.
    pub(crate) frame: Frame,
    /// The ones around it, the innermost last.
    pub(crate) around: Frames,
    pub(crate) next: Next,
}

impl Position {
    /// Returns the position before the first event, for an empty text.
    #[inline(always)]
    pub(crate) fn new(alloc: Global, config: Config, text: Vec<u8>) -> Position
        requires { text.items ≡ [] }
        ensures { Stands config result start }
    {
        Position {
            writer: Writer::over(alloc, config, text),
            frame: Frame::new(FrameKind::Top),
            around: Frames::new(alloc),
            next: Next::Value,
        }
    }

    /// Returns the text that was written.
    #[inline(always)]
    pub(crate) fn into_text(self) -> Vec<u8>
        ensures { Some result.items ≡ (state_of self.writer).taken }
    {
        let Position { writer, .. } = self;
        writer.into_text()
    }

    // Tests whether a value may be written next.
    #[inline(always)]
    fn value_comes(&self) -> Result<(), Halt>
        ensures { IsOk result ↔ (self.now.next ≡ Value) }
    {
        match self.next {
            Next::Value => Ok(()),
            Next::Key | Next::Flattened | Next::Nothing => Err(self.misplaced()),
        }
    }

    // Returns the error of an event that isn't allowed next.
    #[cold]
    #[inline(never)]
    fn misplaced(&self) -> Halt {
        match self.next {
            Next::Value => self.rejected("a key ended that didn't begin"),
            Next::Key => Halt::Stopped(Stop::BadKey),
            Next::Flattened => self.rejected("only a map or a struct can be flattened"),
            Next::Nothing => Halt::Failed,
        }
    }

    /// Returns the error with this message.
    #[cold]
    #[inline(never)]
    pub(crate) fn rejected(&self, message: &str) -> Halt
        ensures { IsHaltSaying message.now result }
    {
        let Ok(text) = String::from_str(self.writer.alloc, message) else {
            return Halt::Stopped(Stop::OutOfMemory);
        };
        match Box::new(self.writer.alloc, text) {
            Ok(text) => Halt::Custom(text),
            Err(_) => Halt::Stopped(Stop::OutOfMemory),
        }
    }

    // Extends the path by a segment, for a part of what is open.
    #[inline(always)]
    fn enter(&mut self, segment: Scalar<'_>) -> Result<(), Halt>
        ensures { Goes (λ config s. goes_under config (scalar_text segment.entry) s) result self.old self.new }
    {
        if self.frame.part.is_some() {
            return Err(self.rejected("a key came in the place of a value"));
        }
        match self.writer.enter(segment) {
            Ok(len) => {
                self.frame.part = Some(len);
                Ok(())
            }
            Err(stop) => Err(Halt::Stopped(stop)),
        }
    }

    // Extends the path by the index of an item.
    #[inline(always)]
    fn begin_item(&mut self) -> Result<(), Halt>
        ensures { Goes (λ config s. under_index (element_segment config.array_format s.here.count) config s) result self.old self.new }
    {
        match self.writer.config.get_array_format() {
            ArrayFormat::Indexed => self.enter(Scalar::Unsigned(self.frame.count as u64)),
            ArrayFormat::EmptyIndexed => self.enter(Scalar::Bytes(&[])),
            ArrayFormat::Unindexed => Ok(()),
        }
    }

    // Goes to the place of a value: extends the path by the index of an item, while a member's key already did.
    #[inline(always)]
    fn begin(&mut self) -> Result<(), Halt>
        ensures { Goes goes_to_value result self.old self.new }
    {
        match self.frame.kind {
            FrameKind::Top => Ok(()),
            FrameKind::Items => self.begin_item(),
            FrameKind::Members | FrameKind::Flattened => {
                if self.frame.part.is_some() {
                    Ok(())
                } else {
                    Err(self.rejected("a value came in the place of a key"))
                }
            }
        }
    }

    // Ends a part: counts it, and takes its segment from the path.
    #[inline(always)]
    fn end(&mut self)
        ensures { (config : Settings) (s : State) → Stands config self.old s → Stands config self.new (ends s) }
    {
        self.frame.count = self.frame.count.saturating_add(1);
        if let Some(len) = self.frame.part {
            self.writer.leave(len);
            self.frame.part = None;
        }
    }

    // Writes one entry as a part.
    #[inline(always)]
    fn put(&mut self, value: Option<Scalar<'_>>) -> Result<(), Halt>
        ensures { Goes (λ config s. Some (puts (option_map scalar_text value.entry) s)) result self.old self.new }
    {
        match value {
            Some(scalar) => {
                let written = self.writer.scalar(scalar);
                self.put_or_stop(written)
            }
            None => {
                let written = self.writer.none();
                self.put_or_stop(written)
            }
        }
    }

    // Ends the part that was written. If an allocation failed, none of the text is kept.
    #[inline(always)]
    fn put_or_stop(&mut self, written: WriteResult) -> Result<(), Halt>
        ensures { (before : Position) (value : Option (List ℕ)) → self.old ≡ record before { writer = self.old.writer }
            → WritesPart written before.writer self.old.writer (λ config path. one path value)
            → Goes (λ config s. Some (puts value s)) result before self.new }
    {
        match written {
            Ok(()) => {
                self.end();
                Ok(())
            }
            Err(stop) => {
                drop(self.writer.take());
                Err(Halt::Stopped(stop))
            }
        }
    }

    // Writes a value of one entry.
    #[inline(always)]
    fn value(&mut self, value: Option<Scalar<'_>>) -> Result<(), Halt>
        ensures { Goes (λ config s. put_value config (option_map scalar_text value.entry) s) result self.old self.new }
    {
        self.begin()?;
        self.put(value)
    }

    // Begins a list or a map.
    fn open(&mut self, kind: FrameKind) -> Result<(), Halt>
        ensures { Goes (λ config s. Some (opened kind s)) result self.old self.new }
    {
        self.around.push(self.frame)?;
        self.frame = Frame::new(kind);
        Ok(())
    }

    // Returns the open list or map, and goes to the one around it.
    fn close(&mut self) -> Result<Frame, Halt>
        ensures goes { Goes (λ config s. closes s) result self.old self.new }
        ensures frame { IfOk result (λ frame. frame ≡ self.old.frame) }
    {
        if self.frame.part.is_some() {
            return Err(self.rejected("a map ended after a key"));
        }
        let Some(frame) = self.around.pop() else {
            return Err(self.rejected("a list or a map ended that didn't begin"));
        };
        let closed = self.frame;
        self.frame = frame;
        Ok(closed)
    }

    // Ends a list or a map as a part of what is around it. If it has no parts, an empty value is written.
    #[inline(always)]
    fn end_as(&mut self, is_empty: bool) -> Result<(), Halt>
        ensures { Goes (λ config s. Some (ends_as is_empty s)) result self.old self.new }
    {
        if is_empty {
            return self.put_empty();
        }
        self.end();
        Ok(())
    }

    // Writes an empty value as a part.
    #[inline(never)]
    fn put_empty(&mut self) -> Result<(), Halt>
        ensures { Goes (λ config s. Some (puts (Some []) s)) result self.old self.new }
    {
        self.put(Some(Scalar::Bytes(&[])))
    }
}

// The events.
impl Position {
    /// Writes a value of one text, or extends the path by it if it is a key.
    #[inline(always)]
    pub(crate) fn scalar(&mut self, value: Scalar<'_>) -> Result<(), Halt>
        ensures { Moves (λ config s. text_sent config (scalar_text value.entry) s) result self.old self.new }
    {
        match self.next {
            Next::Value => self.value(Some(value)),
            Next::Key => self.enter(value),
            Next::Flattened | Next::Nothing => Err(self.misplaced()),
        }
    }

    /// Writes no value. In place of a map that is flattened it writes nothing.
    pub(crate) fn nothing(&mut self) -> Result<(), Halt>
        ensures { Moves nothing_sent result self.old self.new }
    {
        match self.next {
            Next::Value => self.value(None),
            Next::Flattened => {
                self.next = Next::Value;
                Ok(())
            }
            Next::Key | Next::Nothing => Err(self.misplaced()),
        }
    }

    /// Begins a list.
    pub(crate) fn begin_seq(&mut self) -> Result<(), Halt>
        ensures { Moves seq_sent result self.old self.new }
    {
        self.value_comes()?;
        self.begin()?;
        self.open(FrameKind::Items)
    }

    /// Ends a list.
    pub(crate) fn end_seq(&mut self) -> Result<(), Halt>
        ensures { Moves seq_ended result self.old self.new }
    {
        self.value_comes()?;
        let frame = self.close()?;
        self.end_as(frame.count == 0)
    }

    /// Begins a map, or one whose members go into the one that is open.
    pub(crate) fn begin_map(&mut self) -> Result<(), Halt>
        ensures { Moves map_sent result self.old self.new }
    {
        match self.next {
            Next::Value => {
                self.begin()?;
                self.open(FrameKind::Members)
            }
            Next::Flattened => {
                self.next = Next::Value;
                self.open(FrameKind::Flattened)
            }
            Next::Key | Next::Nothing => Err(self.misplaced()),
        }
    }

    // serde sends the same events for an empty map and for a struct without shown fields. At the top nothing is written, and both are read
    // from that.
    /// Ends a map.
    pub(crate) fn end_map(&mut self) -> Result<(), Halt>
        ensures { Moves map_ended result self.old self.new }
    {
        self.value_comes()?;
        let frame = self.close()?;
        match frame.kind {
            FrameKind::Flattened => {
                self.frame.count = self.frame.count.saturating_add(frame.count);
                Ok(())
            }
            FrameKind::Top | FrameKind::Items | FrameKind::Members => {
                let kind = self.frame.kind;
                self.end_as(frame.count == 0 && kind != FrameKind::Top)
            }
        }
    }

    /// Extends the path by a name.
    #[inline(always)]
    pub(crate) fn key(&mut self, name: &[u8]) -> Result<(), Halt>
        ensures { Moves (λ config s. key_sent config name.now s) result self.old self.new }
    {
        self.value_comes()?;
        self.enter(Scalar::Bytes(name))
    }

    /// Begins a key.
    pub(crate) fn begin_key(&mut self) -> Result<(), Halt>
        ensures { Moves (λ config s. goes_on Key s) result self.old self.new }
    {
        self.value_comes()?;
        self.next = Next::Key;
        Ok(())
    }

    /// Ends a key.
    pub(crate) fn end_key(&mut self) -> Result<(), Halt>
        ensures { Moves (λ config s. key_ended_at s.next s) result self.old self.new }
    {
        match self.next {
            Next::Key => {
                self.next = Next::Value;
                Ok(())
            }
            Next::Value | Next::Flattened | Next::Nothing => Err(self.misplaced()),
        }
    }

    /// Flattens the next map: its members go into the one that is open.
    pub(crate) fn flatten(&mut self) -> Result<(), Halt>
        ensures { Moves (λ config s. goes_on Flattened s) result self.old self.new }
    {
        self.value_comes()?;
        self.next = Next::Flattened;
        Ok(())
    }
}

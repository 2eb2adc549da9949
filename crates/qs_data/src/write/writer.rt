//! A writer: a value writes itself to it part by part, and its text is kept in memory.

ghost use Rattle.std.specs.Prelude.{◌≡◌, [], Some, None, IfOk, IfErr, Err};
ghost use Rattle.qs_spec.specs.Entry.{one};
ghost use Rattle.qs_data.specs.data.Views.{data_of};
ghost use Rattle.qs_data.specs.write.Scalars.{scalar_text};
ghost use Rattle.qs_data.specs.write.Parts.{Part, WritesPart, IsFresh, Enters, Leaves, data_part, state_of, under};

use crate::data::Data;
use crate::write::entry::{Stream, Walk, put, put_empty};
use crate::write::scalar::Scalar;
use crate::write::sink::ByWrite;
use crate::write::stop::{Stop, WriteResult};
use crate::write::walk::write_data;
use qs_tree::Config;
use std::alloc::{AllocError, Global};
use std::mem;

/// Writes a value part by part as text in memory, each part at the writer's path.
///
/// A type that writes itself calls one of [`scalar`](Writer::scalar), [`none`](Writer::none), [`unit`](Writer::unit) and
/// [`data`](Writer::data), or enters the key of each part by [`enter`](Writer::enter), and leaves it by [`leave`](Writer::leave).
///
/// After a [`Stop`] the writer's path is unknown, so write nothing more to it: take its text by [`into_text`](Writer::into_text), or drop
/// it.
///
/// ```
/// let len = writer.enter(Scalar::Bytes(b"age"))?;
/// writer.scalar(Scalar::Unsigned(24))?; // age=24
/// writer.leave(len);
/// ```
#[derive(Drop)]
pub struct Writer {
    /// The allocator.
    pub alloc: Global,
    /// How it writes.
    pub config: Config,
    stream: Stream<ByWrite<Vec<u8>>>,
    walk: Walk,
}

impl Writer {
    /// Returns a writer at the top that has written nothing yet. It allocates 128 bytes for the text. The only error is [`AllocError`], if
    /// that allocation fails.
    ///
    /// ```
    /// let writer = Writer::new(alloc, Config::new())?;
    /// ```
    pub fn new(alloc: Global, config: Config) -> Result<Writer, AllocError>
        ensures { IfOk result (λ writer. IsFresh config writer) }
    {
        let text = Vec::with_capacity(alloc, 128)?;
        Ok(Writer::over(alloc, config, text))
    }

    /// Returns a writer at the top that appends to this empty text. It doesn't allocate.
    ///
    /// ```
    /// let writer = Writer::over(alloc, Config::new(), Vec::with_capacity(alloc, 128)?);
    /// ```
    #[inline(always)]
    pub fn over(alloc: Global, config: Config, text: Vec<u8>) -> Writer
        requires { text.items ≡ [] }
        ensures { IsFresh config result }
    {
        Writer {
            alloc,
            config,
            stream: Stream {
                sink: ByWrite::new(text),
                started: false,
            },
            walk: Walk::new(alloc, config),
        }
    }

    /// Returns this writer, and leaves one without text in its place. Doesn't allocate.
    ///
    /// ```
    /// let whole = writer.take();
    /// ```
    pub fn take(&mut self) -> Writer
        ensures taken { result ≡ self.old }
        ensures left { IsFresh self.old.config self.new }
    {
        let empty = Writer::over(self.alloc, self.config, Vec::new(self.alloc));
        mem::replace(self, empty)
    }

    /// Returns the text that was written. Doesn't allocate.
    ///
    /// ```
    /// let text = writer.into_text(); // b"age=24"
    /// ```
    pub fn into_text(self) -> Vec<u8>
        ensures { Some result.items ≡ (state_of self).taken }
    {
        self.stream.sink.into_writer()
    }

    /// Writes one entry with this value at the writer's path.
    ///
    /// The errors are [`OutOfMemory`](Stop::OutOfMemory) and [`Io`](Stop::Io), both if an allocation failed.
    ///
    /// ```
    /// writer.scalar(Scalar::Bool(true))?;
    /// ```
    pub fn scalar(&mut self, value: Scalar<'_>) -> WriteResult
        ensures { WritesPart result self.old self.new (λ config path. one path (Some (scalar_text value.entry))) }
    {
        put(&mut self.stream, &mut self.walk, Some(value))
    }

    /// Writes one entry without a value at the writer's path, like an absent value. The errors are the same as for
    /// [`scalar`](Writer::scalar).
    ///
    /// ```
    /// writer.none()?;
    /// ```
    pub fn none(&mut self) -> WriteResult
        ensures { WritesPart result self.old self.new (λ config path. one path None) }
    {
        put(&mut self.stream, &mut self.walk, None)
    }

    /// Writes one entry with an empty value at the writer's path, like a unit, an empty list or an empty map. The errors are the same as
    /// for [`scalar`](Writer::scalar).
    ///
    /// ```
    /// writer.unit()?;
    /// ```
    pub fn unit(&mut self) -> WriteResult
        ensures { WritesPart result self.old self.new (λ config path. one path (Some [])) }
    {
        put_empty(&mut self.stream, &mut self.walk)
    }

    /// Writes the entries of the data at the writer's path, up to the first error.
    ///
    /// It returns the same errors as [`scalar`](Writer::scalar) and [`enter`](Writer::enter), or [`BadKey`](Stop::BadKey). With
    /// [`TooDeep`](Stop::TooDeep) and `BadKey`, the entries before the rejected one are written.
    ///
    /// ```
    /// writer.data(&datum)?;
    /// ```
    pub fn data(&mut self, datum: &Data) -> WriteResult
        ensures { WritesPart result self.old self.new (data_part (data_of datum.now)) }
    {
        write_data(&mut self.stream, &mut self.walk, datum)
    }

    /// Enters the part under this key, which is the name of a field or the index of an item. Returns the length of the path before, for
    /// [`leave`](Writer::leave).
    ///
    /// The errors are [`TooDeep`](Stop::TooDeep), if the path is as long as the configuration allows, and
    /// [`OutOfMemory`](Stop::OutOfMemory). Nothing is written.
    ///
    /// ```
    /// let len = writer.enter(Scalar::Unsigned(0))?;
    /// ```
    pub fn enter(&mut self, segment: Scalar<'_>) -> Result<usize, Stop>
        ensures ok { IfOk result (λ len. Enters (scalar_text segment.entry) len self.old self.new) }
        ensures err { IfErr result (λ stop. (part : Part) → WritesPart (Err stop) self.old self.new (under (scalar_text segment.entry) part)) }
    {
        match self.walk.enter(segment) {
            Ok(len) => Ok(len),
            Err(stop) => Err(stop),
        }
    }

    /// Goes back to where the path had this length. It doesn't allocate.
    ///
    /// ```
    /// writer.leave(len);
    /// ```
    pub fn leave(&mut self, len: usize)
        ensures { Leaves len self.old self.new }
    {
        self.walk.leave(len);
    }
}

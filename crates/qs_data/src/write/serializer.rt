//! The serializer: it writes value after value until the first error, and nothing after it.

ghost use Rattle.std.specs.Prelude.{◌≡◌, ℕ, ◌<◌, ◌↔◌, true, false, not, List, length, take, Some, None, OnOk, is_ok};
ghost use Rattle.std.specs.List.{All};
ghost use Rattle.std.specs.Io.KnownBytes.{Appends};
ghost use Rattle.qs_spec.specs.Entry.{too_deep, bad_key};
ghost use Rattle.qs_spec.specs.Written.{written, started_after};
ghost use Rattle.qs_tree.specs.Error.{IsTooDeep, IsUnsupported, IsIo, IsOutOfMemory, IsFailed};
ghost use Rattle.qs_data.specs.data.Views.{data_of};

use crate::data::Data;
use crate::write::entry::{Stream, Walk};
use crate::write::sink::{ByWrite, Sink};
use crate::write::sink_with_error::SinkWithError;
use crate::write::stop::Stop;
use crate::write::walk::write_all;
use qs_tree::{Config, Error, Result};
use std::alloc::Global;
use std::io::Write;
use std::marker::Model;
use std::{io, mem};

/// Writes data as a querystring to a [`Sink`], value after value, until its first error.
///
/// ```
/// let mut serializer = Serializer::new(&mut out, Config::new());
/// serializer.serialize(alloc, &first)?; // a=1
/// serializer.serialize(alloc, &second)?; // a=1&b=2
/// ```
#[derive(Drop)]
pub struct Serializer<S: Sink> {
    config: Config,
    stream: Stream<SinkWithError<S>>,
    failed: bool,
}

impl<S: Sink> Model for Serializer<S> {
    ghost use Rattle.std.specs.Prelude.{◌≡◌, false};
    ghost use Rattle.qs_data.specs.write.State.{State};

    ghost Value = { State S };

    ghost view = { λ s. record { config = s.config; sink = s.stream.sink.sink; failed = s.failed; started = s.stream.started } };

    ghost invariant = { λ s. s.failed ≡ false → S.failed s.stream.sink.sink ≡ false };
}

impl<W: Write + Drop> Serializer<ByWrite<W>> {
    /// Returns a serializer that writes to this writer, one `write` for each put. Nothing is written yet, and nothing is
    /// allocated.
    ///
    /// ```
    /// let serializer = Serializer::new(Vec::new(alloc), Config::new());
    /// ```
    pub fn new(writer: W, config: Config) -> Serializer<ByWrite<W>>
        ensures config { result.config ≡ config }
        ensures writer { result.sink.writer ≡ writer }
        ensures sound { result.sink.failed ≡ false }
        ensures fresh { result.failed ≡ false }
        ensures empty { result.started ≡ false }
    {
        Serializer::over(ByWrite::new(writer), config)
    }
}

impl<S: Sink> Serializer<S> {
    ghost use Rattle.qs_data.specs.write.State.{output_of, text_of};
    ghost use Rattle.qs_data.specs.write.State.{IsVisible, IsUnallocated};
    ghost use Rattle.qs_data.specs.write.Errors.{IsWriteError};

    /// Returns a serializer over a sink that has not failed. Nothing is put yet, and nothing is allocated.
    ///
    /// ```
    /// let serializer = Serializer::over(ByWrite::new(out), Config::new());
    /// ```
    pub fn over(sink: S, config: Config) -> Serializer<S>
        requires { S.failed sink ≡ false }
        ensures config { result.config ≡ config }
        ensures sink { result.sink ≡ sink }
        ensures fresh { result.failed ≡ false }
        ensures empty { result.started ≡ false }
    {
        Serializer {
            config,
            stream: Stream {
                sink: SinkWithError::new(sink),
                started: false,
            },
            failed: false,
        }
    }

    /// Returns the sink, with all that was put to it. Doesn't allocate.
    ///
    /// ```
    /// let out = serializer.into_sink().into_writer();
    /// ```
    pub fn into_sink(self) -> S
        ensures { result ≡ self.sink }
    {
        self.stream.sink.sink
    }

    /// Writes the entries of the data after what was written before.
    ///
    /// Each scalar in the data is one entry, under the names, keys and indices that lead to it. `&` precedes each entry that has a
    /// key, except the first. The text holds only bytes from 0x21 to 0x7E.
    ///
    /// The walk stops at the first error:
    /// - [`Failed`](Error::Failed): an earlier call returned an error. Nothing is written.
    /// - [`MaxSerializationDepthExceeded`](Error::MaxSerializationDepthExceeded): a path is longer than the configuration's
    ///   `max_depth` allows; [`Unsupported`](Error::Unsupported): a map's key isn't a scalar, which is reported whatever the depth.
    ///   The entries before it are written.
    /// - [`Io`](Error::Io): the sink failed in this call: a put took nothing, was interrupted or failed. It is not repeated. A
    ///   proper prefix of the text is written.
    /// - [`OutOfMemory`](Error::OutOfMemory): an allocation failed. Some first entries are written, each whole: the memory for an
    ///   entry is allocated before its first byte is put.
    ///
    /// It allocates for the path and for values of up to 1,024 bytes; longer ones are put in pieces. It doesn't allocate
    /// for `Unit` or `None` alone (also within `Some` or `Newtype`). Its time grows with the data and the length of what is written.
    ///
    /// ```
    /// let age = (String::from_str(alloc, "age")?, Data::Unsigned(24));
    /// serializer.serialize(alloc, &Data::Struct(vec![in alloc; age]?))?; // age=24
    /// ```
    pub fn serialize(&mut self, alloc: Global, datum: &Data) -> Result<()>
        ensures whole { OnOk result ((output_of self.old (data_of datum.now)).error ≡ None) }
        ensures text { OnOk result (Appends (S.taken self.old.sink) (S.taken self.new.sink) (text_of self.old (data_of datum.now))) }
        ensures started { OnOk result (self.new.started
            ≡ started_after self.old.started (output_of self.old (data_of datum.now)).entries) }
        ensures too_deep { (n : ℕ) → IsTooDeep result n
            → (n ≡ self.old.config.max_depth) × ((output_of self.old (data_of datum.now)).error ≡ Some too_deep) }
        ensures too_deep_text { (n : ℕ) → IsTooDeep result n
            → Appends (S.taken self.old.sink) (S.taken self.new.sink) (text_of self.old (data_of datum.now)) }
        ensures bad_key { IsUnsupported result → (output_of self.old (data_of datum.now)).error ≡ Some bad_key }
        ensures bad_key_text { IsUnsupported result
            → Appends (S.taken self.old.sink) (S.taken self.new.sink) (text_of self.old (data_of datum.now)) }
        ensures io { IsIo result ↔ ((S.failed self.old.sink ≡ false) × (S.failed self.new.sink ≡ true)) }
        ensures io_text { IsIo result → (n : ℕ) × (n < length (text_of self.old (data_of datum.now)))
            × Appends (S.taken self.old.sink) (S.taken self.new.sink) (take n (text_of self.old (data_of datum.now))) }
        ensures memory_text { IsOutOfMemory result → (k : ℕ) × Appends (S.taken self.old.sink) (S.taken self.new.sink)
            (written self.old.config.is_form self.old.started (take k (output_of self.old (data_of datum.now)).entries)) }
        ensures no_allocation { IsUnallocated (data_of datum.now) → IsOutOfMemory result → ⊥ }
        ensures failed { IsFailed result ↔ (self.old.failed ≡ true) }
        ensures failed_keeps { IsFailed result → self.new ≡ self.old }
        ensures errors { IsWriteError result }
        ensures after { self.new.failed ≡ not (is_ok result) }
        ensures sound { OnOk result (S.failed self.new.sink ≡ false) }
        ensures config { self.new.config ≡ self.old.config }
        ensures visible { (added : List ℕ) × Appends (S.taken self.old.sink) (S.taken self.new.sink) added × All IsVisible added }
        ensures same_writer { S.writer_name self.new.sink ≡ S.writer_name self.old.sink }
    {
        if self.failed {
            return Err(Error::Failed);
        }
        self.failed = true;
        let mut walk = Walk::new(alloc, self.config);
        match write_all(&mut self.stream, &mut walk, self.config, datum) {
            Ok(()) => {
                self.failed = false;
                Ok(())
            }
            Err(Stop::TooDeep) => Err(Error::MaxSerializationDepthExceeded(
                self.config.get_max_depth(),
            )),
            Err(Stop::BadKey) => Err(Error::Unsupported),
            Err(Stop::Io) => {
                let unknown = io::Error::from(io::ErrorKind::WriteZero);
                Err(Error::Io(mem::replace(&mut self.stream.sink.cause, unknown)))
            }
            Err(Stop::OutOfMemory) => Err(Error::OutOfMemory),
        }
    }
}

//! Where written text goes.

ghost use Rattle.std.specs.Prelude.{◌≡◌, ℕ, ◌<◌, ◌≤◌, List, length, take, Bool, false, ◌||◌, OnOk, IfErr, is_err};
ghost use Rattle.std.specs.declared.option.Option.{Option};
ghost use Rattle.std.specs.Io.{WritesAtMost};
ghost use Rattle.std.specs.Io.KnownBytes.{Appends, WriteAppends};
ghost use Rattle.qs_spec.specs.Escape.{encoded};
ghost use Rattle.qs_data.specs.write.Put.{put_fails};
ghost use Rattle.qs_data.specs.declared.write.stop.Stop.TheVariants.{Io};

use crate::write::stop::Stop;
use qs_tree::encode_to;
use std::io;
use std::io::Write;

/// How many bytes of a value are put at once, encoded; a shorter value is put with its key.
pub(crate) const PIECE: usize = 1024;

/// Takes bytes, and remembers whether it ever failed to.
///
/// [`ByWrite`] makes a sink of any writer. A type of its own may be one too, such as a buffer with a
/// limit; its [`put`](Sink::put) returns what a writer's `write` returns.
///
/// ```
/// let mut serializer = Serializer::over(ByWrite::new(writer), Config::new());
/// let result = serializer.serialize(alloc, &datum);
/// let lost_bytes = serializer.into_sink().has_failed(); // then the result is an `Io` error
/// ```
pub trait Sink {
    // The bytes that it took so far, if the sink reports them.
    ghost taken: { Self → Option (List ℕ) };

    // Whether a put failed.
    ghost failed: { Self → Bool };

    // The caller's writer that it writes to, if it holds one by reference.
    ghost writer_name: { Self → ℕ } = { λ _. 0 };

    /// Takes the first bytes of `bytes`, and returns how many; with an error it takes none.
    ///
    /// A put of some bytes that takes none, or that returns an error of any kind, fails: from then
    /// on the sink has failed.
    ///
    /// ```
    /// let taken = sink.put(b"a=1")?; // 0 to 3
    /// ```
    fn put(&mut self, bytes: &[u8]) -> io::Result<usize>
        ensures bound { WritesAtMost result bytes.now }
        ensures takes { WriteAppends (taken self.old) (taken self.new) result bytes.now }
        ensures fails { failed self.new ≡ (failed self.old || put_fails result bytes.now) }
        ensures same_writer { writer_name self.new ≡ writer_name self.old };

    /// Returns whether a put ever failed.
    ///
    /// ```
    /// if sink.has_failed() {
    ///     return Err(Stop::Io);
    /// }
    /// ```
    fn has_failed(&self) -> bool
        ensures { result ≡ failed self.now };
}

/// The sink of a writer: each put is one `write`, which is never repeated.
///
/// ```
/// let serializer = Serializer::over(ByWrite::new(Vec::new(alloc)), Config::new());
/// ```
#[derive(Drop)]
pub struct ByWrite<W: Write + Drop> {
    writer: W,
    failed: bool,
}

impl<W: Write + Drop> ByWrite<W> {
    /// Returns the sink of this writer. Nothing is written yet, and nothing is allocated.
    ///
    /// ```
    /// let sink = ByWrite::new(Vec::new(alloc));
    /// ```
    pub fn new(writer: W) -> ByWrite<W>
        ensures writer { result.writer ≡ writer }
        ensures fresh { result.failed ≡ false }
    {
        ByWrite {
            writer,
            failed: false,
        }
    }

    /// Returns the writer, with all that was written to it. Doesn't allocate.
    ///
    /// ```
    /// let bytes = serializer.into_sink().into_writer();
    /// ```
    pub fn into_writer(self) -> W
        ensures { result ≡ self.writer }
    {
        self.writer
    }
}

impl<W: Write + Drop> Sink for ByWrite<W> {
    ghost taken = { λ s. W.contents s.writer };

    ghost failed = { λ s. s.failed };

    fn put(&mut self, bytes: &[u8]) -> io::Result<usize> {
        let result = self.writer.write(bytes);
        let count = match &result {
            Ok(count) => *count,
            Err(_) => 0,
        };
        if count == 0 && !bytes.is_empty() {
            self.failed = true;
        }
        result
    }

    fn has_failed(&self) -> bool {
        self.failed
    }
}

/// Puts all of these bytes, one put after another, until one fails.
pub(crate) fn put_all<S: Sink>(sink: &mut S, bytes: &[u8]) -> Result<(), Stop>
    ensures all { OnOk result (Appends (S.taken sink.old) (S.taken sink.new) bytes.now) }
    ensures part { IfErr result (λ stop. (stop ≡ Io) × (n : ℕ) × (n < length bytes.now)
        × Appends (S.taken sink.old) (S.taken sink.new) (take n bytes.now)) }
    ensures fails { S.failed sink.new ≡ (S.failed sink.old || is_err result) }
    ensures same_writer { S.writer_name sink.new ≡ S.writer_name sink.old }
{
    let mut rest = bytes;
    while !rest.is_empty() {
        match sink.put(rest) {
            Ok(0) => return Err(Stop::Io),
            Ok(count) => rest = &rest[count..],
            Err(_) => return Err(Stop::Io),
        }
    }
    Ok(())
}

/// Puts all of these bytes, encoded, piece by piece, until a put fails. It doesn't allocate.
pub(crate) fn put_encoded<S: Sink>(sink: &mut S, bytes: &[u8], is_form: bool) -> Result<(), Stop>
    ensures all { OnOk result (Appends (S.taken sink.old) (S.taken sink.new) (encoded is_form bytes.now)) }
    ensures part { IfErr result (λ stop. (stop ≡ Io) × (n : ℕ) × (n < length (encoded is_form bytes.now))
        × Appends (S.taken sink.old) (S.taken sink.new) (take n (encoded is_form bytes.now))) }
    ensures fails { S.failed sink.new ≡ (S.failed sink.old || is_err result) }
    ensures same_writer { S.writer_name sink.new ≡ S.writer_name sink.old }
{
    let mut rest = bytes;
    while !rest.is_empty() {
        let (piece, tail) = rest.split_at(rest.len().min(PIECE));
        put_piece(sink, piece, is_form)?;
        rest = tail;
    }
    Ok(())
}

// Puts a piece of a text, encoded.
#[inline(never)]
#[tactic(auto, using(qs_tree::proofs::lemmas::escape::EncodedFronts::encoded_few))]
fn put_piece<S: Sink>(sink: &mut S, bytes: &[u8], is_form: bool) -> Result<(), Stop>
    requires { length bytes.now ≤ PIECE }
    ensures all { OnOk result (Appends (S.taken sink.old) (S.taken sink.new) (encoded is_form bytes.now)) }
    ensures part { IfErr result (λ stop. (stop ≡ Io) × (n : ℕ) × (n < length (encoded is_form bytes.now))
        × Appends (S.taken sink.old) (S.taken sink.new) (take n (encoded is_form bytes.now))) }
    ensures fails { S.failed sink.new ≡ (S.failed sink.old || is_err result) }
    ensures same_writer { S.writer_name sink.new ≡ S.writer_name sink.old }
{
    let mut room = [0; 3 * PIECE];
    let len = encode_to(bytes, is_form, &mut room, 0);
    put_all(sink, &room[..len])
}

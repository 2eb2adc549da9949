//! Calls that write.

ghost use Rattle.std.specs.Prelude.{◌≡◌, ◌⊎◌, ◌<◌, ℕ, length, take, string_bytes};
ghost use Rattle.std.specs.List.{All};
ghost use Rattle.std.specs.Io.KnownBytes.{Appends};
ghost use Rattle.qs_spec.specs.Config.{default};
ghost use Rattle.qs_tree.specs.Error.{IsIo};
ghost use Rattle.qs_data.specs.write.State.{IsVisible};
ghost use Rattle.qs_serde.specs.Halts.{HasFailed, IsFinish};
ghost use Rattle.qs_serde.specs.Texts.{ReturnsTextOf, WritesTextOf};

use crate::writing::{Halt, Settings, TextSerializer};
use qs_tree::{Config, Error, Result};
use serde::Serialize;
use std::alloc::Global;
use std::io;
use std::io::Write;
use std::marker::Brand;

/// Returns the querystring of a value, with the default configuration.
///
/// ```
/// let text = to_string(alloc, &query)?; // name=Alice&age=24
/// ```
///
/// # Errors
///
/// - [`MaxSerializationDepthExceeded`](Error::MaxSerializationDepthExceeded): a value nests deeper than the configuration's `max_depth`
///   allows.
/// - [`Unsupported`](Error::Unsupported): a map's key isn't a value of one text.
/// - [`Custom`](Error::Custom): the type's own code rejects the value, or writes a map's value without its key, or a key in place of a
///   value; or what is flattened is neither a map nor a struct.
/// - [`Failed`](Error::Failed): the type's own code hid one of these errors, or continued after it.
/// - [`OutOfMemory`](Error::OutOfMemory): an allocation failed.
///
/// It allocates for the text, for the longest path in it and for a stack of the open lists and maps. The time grows with the text.
pub fn to_string<T: Serialize>(alloc: Global, value: &T) -> Result<String>
    ensures { ReturnsTextOf default (T.writes value.now) result }
{
    to_string_with(alloc, Config::new(), value)
}

/// Writes the querystring of a value, with the default configuration.
///
/// ```
/// let mut out = Vec::new(alloc);
/// to_writer(alloc, &query, &mut out)?; // name=Alice&age=24
/// ```
///
/// The text is first built in memory, with the allocations of [`to_string`], and then written in as few writes as the writer allows.
///
/// # Errors
///
/// - the errors of [`to_string`]: the text of the entries before the rejected one was written, or nothing after
///   [`OutOfMemory`](Error::OutOfMemory).
/// - [`Io`](Error::Io): a write failed, was interrupted or wrote no byte. It isn't retried.
pub fn to_writer<T: Serialize, W: Write>(alloc: Global, value: &T, writer: &mut W) -> Result<()>
    ensures { WritesTextOf default (T.writes value.now) (W.contents writer.old) (W.contents writer.new) result }
{
    to_writer_with(alloc, Config::new(), value, writer)
}

/// Returns the querystring of a value under a configuration. Errors, allocations and time are as for [`to_string`].
///
/// ```
/// let config = Config::new().array_format(ArrayFormat::Unindexed);
/// let text = to_string_with(alloc, config, &query)?; // ids=7&ids=8
/// ```
pub fn to_string_with<T: Serialize>(alloc: Global, config: Config, value: &T) -> Result<String>
    ensures { ReturnsTextOf config (T.writes value.now) result }
{
    write_text::<Brand, T>(alloc, config, value)
}

// Returns the querystring of a value, by a serializer whose configuration contracts know.
fn write_text<K: Settings, T: Serialize>(alloc: Global, config: Config, value: &T) -> Result<String>
    requires { config ≡ K.config }
    ensures { ReturnsTextOf K.config (T.writes value.now) result }
{
    let text = Vec::with_capacity(alloc, 128)?;
    let mut serializer: TextSerializer<K> = TextSerializer::over(alloc, config, text);
    let made = value.serialize(&mut serializer);
    finished(&serializer, config, made)?;
    Ok(string_of(serializer.into_text()))
}

// Returns the result of a serializer's last step as the result of a call. It is an error if an event wasn't written, even if the type's
// own code hid that.
#[inline(always)]
fn finished<K: Settings>(
    serializer: &TextSerializer<K>,
    config: Config,
    made: Result<(), Halt>,
) -> Result<()>
    ensures { IsFinish config (HasFailed serializer.now.position) made result }
{
    match made {
        Err(halt) => Err(halt.into_error(config)),
        Ok(()) if serializer.has_failed() => Err(Error::Failed),
        Ok(()) => Ok(()),
    }
}

// Returns visible bytes as a string, since they are ASCII. It doesn't allocate.
fn string_of(text: Vec<u8>) -> String
    requires { ∥ All IsVisible text.items ∥₁ }
    ensures { string_bytes result ≡ text.items }
{
    unsafe { String::from_utf8_unchecked(text) }
}

/// Writes the querystring of a value under a configuration. Errors, what was written before them, allocations and time are as for
/// [`to_writer`].
///
/// ```
/// to_writer_with(alloc, config, &query, &mut out)?; // ids=7&ids=8
/// ```
pub fn to_writer_with<T: Serialize, W: Write>(
    alloc: Global,
    config: Config,
    value: &T,
    writer: &mut W,
) -> Result<()>
    ensures { WritesTextOf config (T.writes value.now) (W.contents writer.old) (W.contents writer.new) result }
{
    write_to::<Brand, T, W>(alloc, config, value, writer)
}

// Writes the querystring of a value, by a serializer whose configuration contracts know.
fn write_to<K: Settings, T: Serialize, W: Write>(
    alloc: Global,
    config: Config,
    value: &T,
    writer: &mut W,
) -> Result<()>
    requires { config ≡ K.config }
    ensures { WritesTextOf K.config (T.writes value.now) (W.contents writer.old) (W.contents writer.new) result }
{
    let mut serializer: TextSerializer<K> = TextSerializer::new(alloc, config)?;
    let sent = value.serialize(&mut serializer);
    let made = finished(&serializer, config, sent);
    if let Err(Error::OutOfMemory) = made {
        return made;
    }
    put(writer, &serializer.into_text(), made)
}

// Writes all of these bytes, one write after another, and returns the given result, or `Io` if a write fails.
fn put<W: Write>(writer: &mut W, bytes: &[u8], made: Result<()>) -> Result<()>
    ensures { ((result ≡ made) × Appends (W.contents writer.old) (W.contents writer.new) bytes.now) ⊎ (IsIo result × (n : ℕ) × (n < length bytes.now) × Appends (W.contents writer.old) (W.contents writer.new) (take n bytes.now)) }
{
    let mut rest = bytes;
    while !rest.is_empty() {
        match writer.write(rest) {
            Ok(0) => return Err(Error::Io(io::Error::from(io::ErrorKind::WriteZero))),
            Ok(count) => rest = &rest[count..],
            Err(error) => return Err(Error::Io(error)),
        }
    }
    made
}

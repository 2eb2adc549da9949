//! Typed calls that write.

ghost use Rattle.std.specs.Prelude.{◌≡◌, ◌⊎◌, ◌<◌, ℕ, length, take, string_bytes};
ghost use Rattle.std.specs.List.{All};
ghost use Rattle.std.specs.Io.KnownBytes.{Appends};
ghost use Rattle.qs_spec.specs.Config.{default};
ghost use Rattle.qs_data.specs.write.State.{IsVisible};
ghost use Rattle.qs_tree.specs.Error.{IsIo};
ghost use Rattle.serde_qs.specs.WrittenText.{ReturnsText, WritesValue};

use crate::traits::Serialize;
use qs_data::{Config, Error, Result, Stop, Writer};
use std::alloc::Global;
use std::io;
use std::io::Write;

/// Returns the querystring of a value, with the default configuration.
///
/// ```
/// let text = to_string(alloc, &query)?; // name=Alice&age=24
/// ```
///
/// # Errors
///
/// - [`MaxSerializationDepthExceeded`](Error::MaxSerializationDepthExceeded): a value nests deeper than the configuration's `max_depth`
///   allows.
/// - [`Unsupported`](Error::Unsupported): a map's key isn't a scalar. No type of this crate has such keys.
/// - [`OutOfMemory`](Error::OutOfMemory): an allocation failed.
///
/// The first two are returned exactly in these cases, and there is no other error. The text is written from the value's entries, and has
/// only bytes from 0x21 to 0x7E. It allocates for the text and the longest path in it, and for the data of parts that don't write
/// themselves ([`write_to`](Serialize::write_to)). The time grows with the text.
pub fn to_string<T: Serialize>(alloc: Global, value: &T) -> Result<String>
    ensures { ReturnsText default (T.datum value.now) result }
{
    write_text(alloc, Config::new(), value)
}

/// Writes the querystring of a value, with the default configuration.
///
/// ```
/// let mut out = Vec::new(alloc);
/// to_writer(alloc, &query, &mut out)?; // name=Alice&age=24
/// ```
///
/// Only bytes from 0x21 to 0x7E are written. On `Ok` the whole text was written. The text is made in memory first, with the allocations of
/// [`to_string`], and then written in as few writes as the writer allows.
///
/// # Errors
///
/// - [`MaxSerializationDepthExceeded`](Error::MaxSerializationDepthExceeded) and [`Unsupported`](Error::Unsupported), as for [`to_string`]:
///   the text of the entries before the rejected one was written.
/// - [`Io`](Error::Io): a write failed, was interrupted or took no byte. It isn't repeated. A proper prefix of the text was
///   written.
/// - [`OutOfMemory`](Error::OutOfMemory): an allocation failed, before the first write. The contract allows that the text of the first few
///   entries was written.
///
/// What was written is promised only for a writer that reports its bytes, such as one over memory; std's files report none. That
/// [`Io`](Error::Io) is returned only if a write failed is tested, not promised.
pub fn to_writer<T: Serialize, W: Write>(alloc: Global, value: &T, writer: &mut W) -> Result<()>
    ensures { WritesValue default (T.datum value.now) (W.contents writer.old) (W.contents writer.new) result }
{
    write_to(alloc, Config::new(), value, writer)
}

/// Returns the querystring of a value under a configuration.
pub(crate) fn write_text<T: Serialize>(alloc: Global, config: Config, value: &T) -> Result<String>
    ensures { ReturnsText config (T.datum value.now) result }
{
    let mut writer = Writer::new(alloc, config)?;
    match value.write_to(&mut writer) {
        Ok(()) => Ok(string_of(writer.into_text())),
        Err(stop) => Err(stop.into_error(config)),
    }
}

// Returns visible bytes as a string, since they are ASCII. It doesn't allocate.
fn string_of(text: Vec<u8>) -> String
    requires { All IsVisible text.items }
    ensures { string_bytes result ≡ text.items }
{
    unsafe { String::from_utf8_unchecked(text) }
}

/// Writes the querystring of a value under a configuration: the text is made in memory, and then written.
pub(crate) fn write_to<T: Serialize, W: Write>(
    alloc: Global,
    config: Config,
    value: &T,
    writer: &mut W,
) -> Result<()>
    ensures { WritesValue config (T.datum value.now) (W.contents writer.old) (W.contents writer.new) result }
{
    let mut text = Writer::new(alloc, config)?;
    match value.write_to(&mut text) {
        Ok(()) => put(writer, &text.into_text(), Ok(())),
        Err(Stop::TooDeep) => {
            let error = Error::MaxSerializationDepthExceeded(config.get_max_depth());
            put(writer, &text.into_text(), Err(error))
        }
        Err(Stop::BadKey) => put(writer, &text.into_text(), Err(Error::Unsupported)),
        Err(Stop::Io | Stop::OutOfMemory) => Err(Error::OutOfMemory),
    }
}

// Writes all of these bytes, one write after another, and returns this result, or `Io` if a write fails.
fn put<W: Write>(writer: &mut W, bytes: &[u8], made: Result<()>) -> Result<()>
    ensures { ((result ≡ made) × Appends (W.contents writer.old) (W.contents writer.new) bytes.now) ⊎ (IsIo result × (n : ℕ) × (n < length bytes.now) × Appends (W.contents writer.old) (W.contents writer.new) (take n bytes.now)) }
{
    let mut rest = bytes;
    while !rest.is_empty() {
        match writer.write(rest) {
            Ok(0) => return Err(Error::Io(io::Error::from(io::ErrorKind::WriteZero))),
            Ok(count) => rest = &rest[count..],
            Err(error) => return Err(Error::Io(error)),
        }
    }
    made
}

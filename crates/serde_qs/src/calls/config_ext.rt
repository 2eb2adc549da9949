//! Typed calls under a configuration.

ghost use Rattle.qs_spec.specs.Config.{Config as Settings};
ghost use Rattle.serde_qs.specs.Typed.{ReturnsValue, ReturnsWritten};
ghost use Rattle.serde_qs.specs.WrittenText.{ReturnsText, WritesValue};

use super::reading::read_typed;
use super::writing::{write_text, write_to};
use crate::traits::{Deserialize, Serialize};
use qs_data::{Config, Result};
use std::alloc::Global;
use std::io::Write;

/// Typed calls under a configuration. Each allocates, and takes time, as the function whose errors it returns.
///
/// ```
/// let config = Config::new().use_form_encoding(true);
/// let query: Query = config.deserialize_str(alloc, "name=John%20Doe&age=7")?;
/// let text = config.serialize_string(alloc, &query)?;
/// ```
pub trait ConfigExt {
    // The configuration.
    ghost settings: { Self → Settings };

    /// Returns the value that is read from a querystring. It returns the same errors as [`from_bytes`](crate::from_bytes).
    ///
    /// ```
    /// let query: Query = Config::new().deserialize_bytes(alloc, b"name=Alice&age=24")?;
    /// ```
    fn deserialize_bytes<T: Deserialize>(self, alloc: Global, input: &[u8]) -> Result<T>
        ensures exact { ReturnsValue T.table.value (settings self) T.table.shape T.table.meaning input.now result }
        ensures back { ReturnsWritten T.table.value (settings self) T.table.shape T.table.meaning input.now result };

    /// Returns the value that is read from a querystring. It returns the same errors as [`from_str`](crate::from_str).
    ///
    /// ```
    /// let query: Query = Config::new().deserialize_str(alloc, "name=Alice&age=24")?;
    /// ```
    fn deserialize_str<T: Deserialize>(self, alloc: Global, input: &str) -> Result<T>
        ensures exact { ReturnsValue T.table.value (settings self) T.table.shape T.table.meaning input.now result }
        ensures back { ReturnsWritten T.table.value (settings self) T.table.shape T.table.meaning input.now result };

    /// Returns the querystring of a value. It returns the same errors as [`to_string`](crate::to_string).
    ///
    /// ```
    /// let text = Config::new().serialize_string(alloc, &query)?; // name=Alice&age=24
    /// ```
    fn serialize_string<T: Serialize>(self, alloc: Global, value: &T) -> Result<String>
        ensures { ReturnsText (settings self) (T.datum value.now) result };

    /// Writes the querystring of a value. The errors, and what was written before each, are the same as for
    /// [`to_writer`](crate::to_writer).
    ///
    /// ```
    /// Config::new().serialize_to_writer(alloc, &query, &mut out)?; // name=Alice&age=24
    /// ```
    fn serialize_to_writer<T: Serialize, W: Write>(
        self,
        alloc: Global,
        value: &T,
        writer: &mut W,
    ) -> Result<()>
        ensures { WritesValue (settings self) (T.datum value.now) (W.contents writer.old) (W.contents writer.new) result };
}

impl ConfigExt for Config {
    ghost settings = { λ config. config };

    fn deserialize_bytes<T: Deserialize>(self, alloc: Global, input: &[u8]) -> Result<T> {
        read_typed(alloc, self, input)
    }

    fn deserialize_str<T: Deserialize>(self, alloc: Global, input: &str) -> Result<T> {
        read_typed(alloc, self, input.as_bytes())
    }

    fn serialize_string<T: Serialize>(self, alloc: Global, value: &T) -> Result<String> {
        write_text(alloc, self, value)
    }

    fn serialize_to_writer<T: Serialize, W: Write>(
        self,
        alloc: Global,
        value: &T,
        writer: &mut W,
    ) -> Result<()> {
        write_to(alloc, self, value, writer)
    }
}

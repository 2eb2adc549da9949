//! The serializer: the events that it was sent, and what they wrote.

ghost use Rattle.std.specs.Prelude.{◌≡◌, ◌↔◌, [], IfOk, IsTrue, Some};
ghost use Rattle.qs_spec.specs.Config.{Config as Meaning, default};
ghost use Rattle.qs_serde.specs.Noted.{Follows};

use super::frame::Next;
use super::log::Log;
use super::position::Position;
use qs_tree::{Config, Result};
use std::alloc::Global;
use std::marker::{Brand, PhantomData};

/// A type by which contracts name a configuration. It does nothing at run time.
pub trait Settings {
    ghost config: { Meaning };
}

impl Settings for Brand {
    ghost config = { default };
}

/// A [`Serializer`](serde::Serializer) that writes a querystring in memory, step by step.
///
/// After an error nothing more is written: each step returns [`Failed`](crate::Halt::Failed). [`into_text`](TextSerializer::into_text)
/// returns the text.
///
/// ```
/// let mut serializer: TextSerializer<Brand> = TextSerializer::new(alloc, Config::new())?;
/// query.serialize(&mut serializer)?;
/// let text = serializer.into_text(); // b"name=Alice&age=24"
/// ```
#[derive(Drop)]
pub struct TextSerializer<K: Settings> {
    pub(crate) position: Position,
    // A buffer for a name in another case, and for a printed text.
    pub(crate) room: String,
    pub(crate) log: Log,
    of: PhantomData<K>,
    ghost follows: { Follows K.config log.events position },
}

impl<K: Settings> TextSerializer<K> {
    ghost use Rattle.qs_serde.specs.Halts.{HasFailed};
    ghost use Rattle.qs_serde.specs.Texts.{IsTextOf, IsTextOfEntries, IsTextOrNone};

    /// Returns a serializer that has written nothing. It allocates 128 bytes. The only error is
    /// [`OutOfMemory`](qs_tree::Error::OutOfMemory).
    ///
    /// ```
    /// let mut serializer: TextSerializer<Brand> = TextSerializer::new(alloc, Config::new())?;
    /// ```
    pub fn new(alloc: Global, config: Config) -> Result<TextSerializer<K>>
        requires { config ≡ K.config }
        ensures { IfOk result (λ serializer. serializer.log.events ≡ Some []) }
    {
        let text = Vec::with_capacity(alloc, 128)?;
        Ok(TextSerializer::over(alloc, config, text))
    }

    /// Returns a serializer that appends to this empty text. It doesn't allocate.
    #[inline(always)]
    pub(crate) fn over(alloc: Global, config: Config, text: Vec<u8>) -> TextSerializer<K>
        requires config { config ≡ K.config }
        requires text { text.items ≡ [] }
        ensures { result.log.events ≡ Some [] }
    {
        TextSerializer {
            position: Position::new(alloc, config, text),
            room: String::new(alloc),
            log: Log::new(),
            of: PhantomData,
        }
    }

    /// Returns whether an event wasn't written. Then no later event is written, either.
    ///
    /// ```
    /// let is_whole = !serializer.has_failed();
    /// ```
    #[inline(always)]
    pub fn has_failed(&self) -> bool
        ensures { IsTrue result ↔ HasFailed self.now.position }
    {
        matches!(self.position.next, Next::Nothing)
    }

    /// Returns the text that was written: that of the events before an error, or no text after a failed allocation. It doesn't allocate.
    ///
    /// ```
    /// let text = serializer.into_text();
    /// ```
    #[inline(always)]
    pub fn into_text(self) -> Vec<u8>
        ensures events { ¬ HasFailed self.position → IsTextOf K.config self.log.events result.items }
        ensures failed { IsTextOrNone K.config self.log.events result.items }
        ensures entries { IsTextOfEntries K.config result.items }
    {
        let TextSerializer { position, .. } = self;
        position.into_text()
    }
}

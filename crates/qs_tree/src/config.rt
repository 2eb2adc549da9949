//! Configuration: how a querystring is parsed, read and written.

ghost use Rattle.std.specs.Prelude.{◌≡◌};
ghost use Rattle.qs_spec.specs.Config.{default};
ghost use Rattle.qs_tree.specs.Settings.{array_format_of, duplicates_of};

use std::marker::Model;

/// How the index of a list's element is written in a key.
///
/// ```
/// let config = Config::new().array_format(ArrayFormat::EmptyIndexed); // writes a[]=x&a[]=y
/// ```
#[derive(Clone, Copy, Debug, Default, PartialEq, Eq)]
pub enum ArrayFormat {
    /// In brackets: `a[0]=x&a[1]=y`.
    #[default]
    Indexed,
    /// As empty brackets: `a[]=x&a[]=y`.
    EmptyIndexed,
    /// Not at all: `a=x&a=y`.
    Unindexed,
}

/// How repeated values are handled if a single value is read.
///
/// ```
/// let config = Config::new().duplicate_key_behavior(DuplicateKeyBehavior::Error);
/// ```
#[derive(Clone, Copy, Debug, Default, PartialEq, Eq)]
pub enum DuplicateKeyBehavior {
    /// The last value is read.
    #[default]
    TakeLast,
    /// Repeated values are an error.
    Error,
}

/// How a querystring is parsed, read and written.
///
/// A method that sets a value returns the configuration with only that value changed. No method allocates, and each takes constant
/// time.
///
/// ```
/// let config = Config::new().max_depth(2).use_form_encoding(true);
/// ```
#[derive(Clone, Copy, Debug)]
pub struct Config {
    max_depth: usize,
    is_form: bool,
    array_format: ArrayFormat,
    duplicates: DuplicateKeyBehavior,
}

impl Model for Config {
    ghost use Rattle.qs_spec.specs.Config.{Config as Meaning};
    ghost use Rattle.qs_tree.specs.Settings.{array_format_of, duplicates_of};
    ghost use Rattle.qs_tree.specs.internal.Settings.{array_format_from, array_format_back, duplicates_from, duplicates_back};

    ghost Value = { Meaning };

    ghost view = { λ c. record {
      max_depth = c.max_depth;
      is_form = c.is_form;
      array_format = array_format_of c.array_format;
      duplicates = duplicates_of c.duplicates;
    } };

    ghost inverse = { λ c. record {
      max_depth = c.max_depth;
      is_form = c.is_form;
      array_format = array_format_from c.array_format;
      duplicates = duplicates_from c.duplicates;
    } };

    ghost inverse_ok = { λ c _ i. record {
      max_depth = c.max_depth;
      is_form = c.is_form;
      array_format = array_format_back c.array_format i;
      duplicates = duplicates_back c.duplicates i;
    } };
}

impl Config {
    /// Returns the default: `max_depth` 5, query encoding, `ArrayFormat::Indexed` and `DuplicateKeyBehavior::TakeLast`.
    ///
    /// ```
    /// parse(alloc, b"a[b]=1", Config::new())
    /// ```
    pub fn new() -> Config
        ensures { result ≡ default }
    {
        Config {
            max_depth: 5,
            is_form: false,
            array_format: ArrayFormat::default(),
            duplicates: DuplicateKeyBehavior::default(),
        }
    }

    /// Sets how many levels of brackets are parsed and written. Deeper brackets are part of the last key when parsed, and an
    /// error when written.
    ///
    /// ```
    /// parse(alloc, b"a[b][c]=1", Config::new().max_depth(1)) // the keys `a`, `b` and `[c]`
    /// ```
    pub fn max_depth(self, max_depth: usize) -> Config
        ensures { result ≡ record self { max_depth = max_depth } }
    {
        Config { max_depth, ..self }
    }

    /// Selects form encoding (`true`) or query encoding (`false`). Form encoding parses escaped brackets too, and writes a space as `%20`.
    ///
    /// ```
    /// parse(alloc, b"a%5Bb%5D=1", Config::new().use_form_encoding(true)) // the keys `a` and `b`
    /// ```
    pub fn use_form_encoding(self, is_form: bool) -> Config
        ensures { result ≡ record self { is_form = is_form } }
    {
        Config { is_form, ..self }
    }

    /// Sets how the index of a list's element is written.
    ///
    /// ```
    /// let config = Config::new().array_format(ArrayFormat::EmptyIndexed); // writes a[]=x&a[]=y
    /// ```
    pub fn array_format(self, array_format: ArrayFormat) -> Config
        ensures { result ≡ record self { array_format = array_format_of array_format } }
    {
        Config {
            array_format,
            ..self
        }
    }

    /// Sets how repeated values are handled if a single value is read.
    ///
    /// ```
    /// let config = Config::new().duplicate_key_behavior(DuplicateKeyBehavior::Error); // rejects a=1&a=2 for one value
    /// ```
    pub fn duplicate_key_behavior(self, duplicates: DuplicateKeyBehavior) -> Config
        ensures { result ≡ record self { duplicates = duplicates_of duplicates } }
    {
        Config { duplicates, ..self }
    }

    /// Returns how many levels of brackets are parsed and written.
    ///
    /// ```
    /// Config::new().get_max_depth() // 5
    /// ```
    pub fn get_max_depth(&self) -> usize
        ensures { result ≡ self.now.max_depth }
    {
        self.max_depth
    }

    /// Returns whether form encoding is used.
    ///
    /// ```
    /// Config::new().get_form() // false
    /// ```
    pub fn get_form(&self) -> bool
        ensures { result ≡ self.now.is_form }
    {
        self.is_form
    }

    /// Returns how the index of a list's element is written.
    ///
    /// ```
    /// Config::new().get_array_format() // ArrayFormat::Indexed
    /// ```
    pub fn get_array_format(&self) -> ArrayFormat
        ensures { array_format_of result ≡ self.now.array_format }
    {
        self.array_format
    }

    /// Returns how repeated values are handled if a single value is read.
    ///
    /// ```
    /// Config::new().get_duplicates() // DuplicateKeyBehavior::TakeLast
    /// ```
    pub fn get_duplicates(&self) -> DuplicateKeyBehavior
        ensures { duplicates_of result ≡ self.now.duplicates }
    {
        self.duplicates
    }
}

impl Default for Config {
    ghost is_default = { λ c. c ≡ default };

    fn default() -> Config {
        Config::new()
    }
}

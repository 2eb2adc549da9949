//! How a querystring is read and written.

ghost use Rattle.std.specs.Prelude.{◌≡◌, ◌<◌, ◌≤◌, ◌⊎◌, IfOk, IfErr};
ghost use Rattle.qs_tree.specs.Settings.{array_format_of, duplicates_of as behavior_of};
ghost use Rattle.qs_c.specs.Settings.{config_of, format_of, duplicates_of, most_levels, AreNone};
ghost use Rattle.qs_c.specs.declared.failure.FailureKind.TheVariants.{Settings as BadSettings};
ghost use Rattle.qs_c.specs.Messages.{array_format_text, settings_text};
ghost use Rattle.qs_c.specs.Status.{text_of, IsOutOfMemory};

use crate::failure::{Failure, FailureKind, failure_at};
use qs_data::{ArrayFormat, Config, DuplicateKeyBehavior};
use std::alloc::Global;

/// The largest `max_depth`. With it a call needs little stack, and what is read nests no deeper than JSON may.
const MOST_DEPTH: usize = 100;

/// How a querystring is read and written.
///
/// ```
/// qs_settings settings = qs_default;
/// settings.array_format = QS_EMPTY_INDEXED; // a[]=x&a[]=y
/// ```
#[repr(C)]
#[derive(Drop)]
pub struct Settings {
    /// How many levels of brackets may follow the first key, 100 at most.
    pub max_depth: usize,
    /// `true` for form mode, where brackets may be encoded; `false` for query mode.
    pub form: bool,
    /// How the index of a list's element is written: 0 by its number, 1 by empty brackets, 2 not at all.
    pub array_format: u8,
    /// Whether several values are an error if one is wanted; otherwise the last is taken.
    pub reject_duplicates: bool,
    /// The most bytes of a querystring that is read; 0 for no limit.
    pub max_length: usize,
    /// The most pairs (the pieces between `&`s) of a querystring that is read; 0 for no limit.
    pub max_pairs: usize,
    /// The most bytes of the JSON that is returned; 0 for no limit.
    pub max_output: usize,
    /// Must be 0. A later version may give other numbers a meaning.
    pub reserved: usize,
}

impl Settings {
    /// Returns the configuration, or an error if a number in the settings is too large.
    pub(crate) fn config(&self, alloc: Global) -> Result<Config, Failure>
        ensures config { IfOk result (λ config. config ≡ config_of self.now) }
        ensures sound { IfOk result (λ config. AreNone self.now → ⊥) }
        ensures limit { IfOk result (λ config. config.max_depth ≤ most_levels) }
        ensures none { IfErr result (λ failure. IsOutOfMemory failure ⊎ ((failure.kind ≡ BadSettings) × (failure.position ≡ 0) × AreNone self.now × (text_of failure ≡ settings_text self.now))) }
    {
        if self.max_depth > MOST_DEPTH {
            return Err(failure_at(
                alloc,
                FailureKind::Settings,
                "max_depth is more than 100",
                0,
            ));
        }
        if self.reserved != 0 {
            return Err(failure_at(alloc, FailureKind::Settings, "reserved is not 0", 0));
        }
        let array_format = self.elements(alloc)?;
        Ok(
            Config::new()
                .max_depth(self.max_depth)
                .use_form_encoding(self.form)
                .array_format(array_format)
                .duplicate_key_behavior(self.duplicates()),
        )
    }

    // Returns the array format with this number.
    fn elements(&self, alloc: Global) -> Result<ArrayFormat, Failure>
        ensures format { IfOk result (λ format. array_format_of format ≡ format_of self.now.array_format) }
        ensures sound { IfOk result (λ format. 2 < self.now.array_format → ⊥) }
        ensures none { IfErr result (λ failure. IsOutOfMemory failure ⊎ ((failure.kind ≡ BadSettings) × (failure.position ≡ 0) × (2 < self.now.array_format) × (text_of failure ≡ array_format_text))) }
    {
        match self.array_format {
            0 => Ok(ArrayFormat::Indexed),
            1 => Ok(ArrayFormat::EmptyIndexed),
            2 => Ok(ArrayFormat::Unindexed),
            _ => Err(failure_at(
                alloc,
                FailureKind::Settings,
                "array_format is none of 0, 1 and 2",
                0,
            )),
        }
    }

    // Returns what happens to repeated values if one is wanted.
    fn duplicates(&self) -> DuplicateKeyBehavior
        ensures { behavior_of result ≡ duplicates_of self.now.reject_duplicates }
    {
        if self.reject_duplicates {
            DuplicateKeyBehavior::Error
        } else {
            DuplicateKeyBehavior::TakeLast
        }
    }
}

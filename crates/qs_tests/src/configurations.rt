//! The defaults, and a configuration with every setting changed.

use crate::claims::is_equal;
use qs_tree::{ArrayFormat, Config, DuplicateKeyBehavior};
use std::process::Abort;

// Claims that the configuration has these settings.
fn has<R: Abort>(
    rt: &R,
    config: Config,
    max_depth: usize,
    form: bool,
    format: ArrayFormat,
    duplicates: DuplicateKeyBehavior,
) {
    is_equal(rt, config.get_max_depth(), max_depth, "the depth");
    is_equal(rt, config.get_form(), form, "form mode");
    is_equal(rt, config.get_array_format(), format, "the format");
    is_equal(rt, config.get_duplicates(), duplicates, "duplicates");
}

#[test]
fn starts_from_the_defaults(rt: HostRuntime) {
    let (format, duplicates) = (ArrayFormat::Indexed, DuplicateKeyBehavior::TakeLast);
    has(&rt, Config::new(), 5, false, format, duplicates);
    has(&rt, Config::default(), 5, false, format, duplicates);
    is_equal(&rt, ArrayFormat::default(), format, "the format");
    is_equal(
        &rt,
        DuplicateKeyBehavior::default(),
        duplicates,
        "duplicates",
    );
}

#[test]
fn changes_each_part(rt: HostRuntime) {
    let (format, duplicates) = (ArrayFormat::Unindexed, DuplicateKeyBehavior::Error);
    let config = Config::new()
        .max_depth(0)
        .use_form_encoding(true)
        .array_format(format)
        .duplicate_key_behavior(duplicates);
    has(&rt, config, 0, true, format, duplicates);
}

//! What the program's arguments ask for.

ghost use Rattle.std.specs.Prelude.{◌≡◌, IfErr, map, string_bytes};
ghost use Rattle.std.specs.Option.{option_and_then};
ghost use Rattle.std.specs.Result.{result_ok};
ghost use Rattle.qs_spec.specs.Scalar.{unsigned_number};
ghost use Rattle.qs_tool.specs.Arguments.{asked, command_named, choices_of, chosen, choose, flag_named, valued, takes_value, format_named, duplicates_named, unchosen, configured};
ghost use Rattle.qs_tool.specs.Misuse.{IsMisuse, IsWrongOption};

use crate::misuse::Misuse;
use serde_qs::{ArrayFormat, Config, DuplicateKeyBehavior};

/// What the program does.
#[derive(Clone, Copy, Debug, PartialEq, Eq)]
pub enum Command {
    /// Reads five fields, none of them nested.
    Flat,
    /// Reads five fields, some of them nested.
    Params,
    /// Reads whatever is there.
    Any,
}

/// A command, and how it reads and writes.
#[derive(Clone, Copy, Debug)]
pub struct Request {
    pub command: Command,
    /// Whether all structs are strict.
    pub strict: bool,
    pub config: Config,
}

/// An option with its value.
#[derive(Clone, Copy)]
enum Choice {
    Form,
    Strict,
    Depth(usize),
    Format(ArrayFormat),
    Duplicates(DuplicateKeyBehavior),
}

/// The options that were given.
#[derive(Clone, Copy)]
struct Settings {
    form: bool,
    strict: bool,
    depth: Option<usize>,
    format: Option<ArrayFormat>,
    duplicates: Option<DuplicateKeyBehavior>,
}

impl Request {
    /// Returns what the words ask for: a command, and then options in any order, each at most once. Returns what is wrong with any other
    /// words.
    pub fn parse(words: &[String]) -> Result<Request, Misuse<'_>>
        ensures request { result_ok result ≡ asked (map string_bytes words.now) }
        ensures misuse { IfErr result (λ misuse. IsMisuse (map string_bytes words.now) misuse) }
    {
        let [name, rest @ ..] = words else {
            return Err(Misuse::NoCommand);
        };
        let Some(command) = Command::named(name.as_str()) else {
            return Err(Misuse::UnknownCommand(name.as_str()));
        };
        options(rest)?
            .configured(command)
            .ok_or(Misuse::DepthOfFlat)
    }

    /// Returns what the words ask for, or `None` if they are invalid.
    pub fn from_words(words: &[String]) -> Option<Request>
        ensures { result ≡ asked (map string_bytes words.now) }
    {
        Request::parse(words).ok()
    }
}

impl Command {
    // Returns the command of this name.
    fn named(name: &str) -> Option<Command>
        ensures { result ≡ command_named name.now }
    {
        match name {
            "flat" => Some(Command::Flat),
            "params" => Some(Command::Params),
            "any" => Some(Command::Any),
            _ => None,
        }
    }
}

impl Choice {
    // Returns the option of this name, if it takes no value.
    fn flag(name: &str) -> Option<Choice>
        ensures { result ≡ flag_named name.now }
    {
        match name {
            "--form" => Some(Choice::Form),
            "--strict" => Some(Choice::Strict),
            _ => None,
        }
    }

    // Returns the option of this name, with this value.
    fn valued(name: &str, value: &str) -> Option<Choice>
        ensures { result ≡ valued name.now value.now }
    {
        match name {
            "--depth" => Some(Choice::Depth(number(value)?)),
            "--format" => Some(Choice::Format(format_named(value)?)),
            "--duplicates" => Some(Choice::Duplicates(duplicates_named(value)?)),
            _ => None,
        }
    }
}

impl Settings {
    // Returns the settings without options.
    fn new() -> Settings
        ensures { result ≡ unchosen }
    {
        Settings {
            form: false,
            strict: false,
            depth: None,
            format: None,
            duplicates: None,
        }
    }

    // Returns these options and one more, unless it was given before.
    fn choose(self, choice: Choice) -> Option<Settings>
        ensures { result ≡ choose self choice }
    {
        match choice {
            Choice::Form if !self.form => Some(Settings { form: true, ..self }),
            Choice::Strict if !self.strict => Some(Settings {
                strict: true,
                ..self
            }),
            Choice::Depth(depth) if self.depth.is_none() => Some(Settings {
                depth: Some(depth),
                ..self
            }),
            Choice::Format(format) if self.format.is_none() => Some(Settings {
                format: Some(format),
                ..self
            }),
            Choice::Duplicates(duplicates) if self.duplicates.is_none() => Some(Settings {
                duplicates: Some(duplicates),
                ..self
            }),
            _ => None,
        }
    }

    // Returns the command with these options, or `None` if they give `flat` a depth.
    fn configured(self, command: Command) -> Option<Request>
        ensures { result ≡ configured command self }
    {
        let depth = match (command, self.depth) {
            (Command::Flat, None) => 0,
            (Command::Flat, Some(_)) => return None,
            (_, None) => Config::new().get_max_depth(),
            (_, Some(depth)) => depth,
        };
        let config = Config::new()
            .max_depth(depth)
            .use_form_encoding(self.form)
            .array_format(self.format.unwrap_or_default())
            .duplicate_key_behavior(self.duplicates.unwrap_or_default());
        Some(Request {
            command,
            strict: self.strict,
            config,
        })
    }
}

// Parses words as options, each given at most once. Returns the first error, if there is one.
fn options(words: &[String]) -> Result<Settings, Misuse<'_>>
    ensures settings { result_ok result ≡ option_and_then (chosen unchosen) (choices_of (map string_bytes words.now)) }
    ensures misuse { IfErr result (λ misuse. IsWrongOption (map string_bytes words.now) misuse) }
{
    let mut settings = Settings::new();
    let mut rest = words;
    while let [name, after @ ..] = rest {
        let name = name.as_str();
        let choice = if let Some(flag) = Choice::flag(name) {
            rest = after;
            flag
        } else {
            if !takes_value(name) {
                return Err(Misuse::UnknownOption(name));
            }
            let [value, after @ ..] = after else {
                return Err(Misuse::Value(name));
            };
            let Some(choice) = Choice::valued(name, value.as_str()) else {
                return Err(Misuse::Value(name));
            };
            rest = after;
            choice
        };
        let Some(chosen) = settings.choose(choice) else {
            return Err(Misuse::Twice(name));
        };
        settings = chosen;
    }
    Ok(settings)
}

// Returns whether a value follows the option of this name.
fn takes_value(name: &str) -> bool
    ensures { result ≡ takes_value name.now }
{
    matches!(name, "--depth" | "--format" | "--duplicates")
}

// Returns the number in the text: digits, with or without a leading `+`, of at most 64 bits.
fn number(text: &str) -> Option<usize>
    ensures { result ≡ unsigned_number 64 text.now }
{
    text.parse().ok()
}

// Returns the array format of this name.
fn format_named(name: &str) -> Option<ArrayFormat>
    ensures { result ≡ format_named name.now }
{
    match name {
        "indexed" => Some(ArrayFormat::Indexed),
        "empty" => Some(ArrayFormat::EmptyIndexed),
        "unindexed" => Some(ArrayFormat::Unindexed),
        _ => None,
    }
}

// Returns the setting of this name for repeated keys.
fn duplicates_named(name: &str) -> Option<DuplicateKeyBehavior>
    ensures { result ≡ duplicates_named name.now }
{
    match name {
        "last" => Some(DuplicateKeyBehavior::TakeLast),
        "error" => Some(DuplicateKeyBehavior::Error),
        _ => None,
    }
}

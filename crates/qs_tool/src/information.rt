//! What the program says about itself.

ghost use Rattle.std.specs.Prelude.{◌≡◌, map, string_bytes};
ghost use Rattle.qs_tool.specs.Information.{information_asked, information_named, IsInformation};

/// What the program says about itself, without reading anything.
#[derive(Clone, Copy, Debug, PartialEq, Eq)]
pub enum Information {
    /// How it is called, and what its commands and options do.
    Help,
    /// Its name and its version.
    Version,
}

const HELP: &str = "\
usage: qs_tool flat|params|any [--form] [--strict] [--depth N] [--format indexed|empty|unindexed] [--duplicates last|error]

Reads a querystring from standard input to its end, and writes one line.

commands:
  any                 shows whatever is there
                        $ echo 'user[name]=John' | qs_tool any
                        {'user':{'name':'John'}}
  flat                reads name, age, occupation, active (which may be missing) and note, and writes them again
                        $ echo 'occupation=Student&age=24&name=Alice' | qs_tool flat
                        name=Alice&age=24&occupation=Student&note
  params              reads id, name, phone, address (city, street, postcode) and user_ids, a list, and writes them again
                        $ echo 'user_ids=7&address[postcode]=3&address[city]=a&address[street]=b&phone=2&name=c&id=1' | qs_tool params
                        id=1&name=c&phone=2&address[city]=a&address[street]=b&address[postcode]=3&user_ids[0]=7

options, in any order, each at most once:
  --form              form encoding: %5B and %5D are brackets in keys
                        $ echo 'user%5Bname%5D=John' | qs_tool any --form
                        {'user':{'name':'John'}}
  --strict            a key that no field has is an error
                        $ echo 'name=a&age=1&occupation=b&x=2' | qs_tool flat --strict
                        error: unknown field `x`
  --depth N           the depth limit, 5 without it; not for flat, whose limit is 0
                        $ echo 'a[b][c]=1' | qs_tool any --depth 1
                        {'a':{'b':{'%5Bc%5D':'1'}}}
  --format FORMAT     how lists are written: indexed as a[0]=1, empty as a[]=1, unindexed as a=1; indexed without it
                        $ echo 'user_ids=7&address[postcode]=3&address[city]=a&address[street]=b&phone=2&name=c&id=1' | qs_tool params --format empty
                        id=1&name=c&phone=2&address[city]=a&address[street]=b&address[postcode]=3&user_ids[]=7
  --duplicates WHICH  where one value is asked for and several are there: the last one is taken, or it is an error; last without it
                        $ echo 'name=a&age=1&age=2&occupation=b' | qs_tool flat --duplicates error
                        error: multiple values provided for non-sequence field

alone: --help prints this, and --version the version

status: 0 done; 1 the querystring was rejected; 2 the arguments are wrong; 3 out of memory, or a read or a write failed
";

const VERSION: &str = "qs_tool 1.1.3\n";

impl Information {
    /// Returns what the words ask for: `--help` or `--version`, if it is the only word.
    pub fn asked(words: &[String]) -> Option<Information>
        ensures { result ≡ information_asked (map string_bytes words.now) }
    {
        let [word] = words else {
            return None;
        };
        Information::named(word.as_str())
    }

    // Returns the information that the option of this name asks for.
    fn named(name: &str) -> Option<Information>
        ensures { result ≡ information_named name.now }
    {
        match name {
            "--help" => Some(Information::Help),
            "--version" => Some(Information::Version),
            _ => None,
        }
    }

    /// Returns its lines.
    pub fn text(self) -> &'static str
        ensures { IsInformation self result.now }
    {
        match self {
            Information::Help => HELP,
            Information::Version => VERSION,
        }
    }
}

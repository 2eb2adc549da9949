//! How many steps a short input takes, and how many keys a look-up compares. The counts take no bytes, so contracts check them.

ghost use Rattle.std.specs.Prelude.{◌≡◌, ◌≤◌, [], length, codes, IfOk};
ghost use Rattle.qs_tree.specs.tree.Views.{map_pairs};

use super::{Config, Error, Global};
use crate::claims::{is_equal, made};
use qs_tree::{Key, ParsedMap, ParsedValue, Steps, parse, parse_with};
use std::process::Abort;

// Returns the steps that an input takes.
fn steps_of(alloc: Global, input: &[u8]) -> Result<Steps, Error>
    ensures empty { input.now ≡ [] → IfOk result (λ steps. steps ≡ 1) }
    ensures percent { input.now ≡ codes "=%" → IfOk result (λ steps. steps ≡ 3) }
    ensures pair { input.now ≡ codes "a=1" → IfOk result (λ steps. steps ≡ 4) }
    ensures ampersand { input.now ≡ codes "a=1&" → IfOk result (λ steps. steps ≡ 5) }
{
    let mut steps = Steps::new();
    parse_with(alloc, &mut steps, input, Config::new())?;
    Ok(steps)
}

// Returns the comparisons that a look-up takes.
fn comparisons_of(map: &ParsedMap<'_>, key: &Key<'_>) -> Steps
    ensures of_none { length (map_pairs map.now) ≡ 0 → result ≡ 0 }
    ensures of_one { length (map_pairs map.now) ≡ 1 → result ≤ 1 }
    ensures of_three { length (map_pairs map.now) ≡ 3 → result ≤ 2 }
    ensures of_four { length (map_pairs map.now) ≡ 4 → result ≤ 3 }
    ensures of_a_thousand { length (map_pairs map.now) ≡ 1000 → result ≤ 10 }
{
    let mut steps = Steps::new();
    let _ = map.get_with(key, &mut steps);
    steps
}

#[test]
fn steps(rt: HostRuntime) {
    for input in ["", "=%", "a=1", "a=1&"] {
        let _ = made(&rt, steps_of(rt.alloc(), input.as_bytes()));
    }
}

// Returns an input with the keys below this number.
fn numbers<R: Abort>(rt: &R, alloc: Global, count: u32) -> String {
    let mut input = String::new(alloc);
    for number in 0..count {
        let key = made(rt, format!(in alloc; "{number}&"));
        made(rt, input.push_str(&key));
    }
    input
}

// Claims that the map has only the keys below this number.
fn has_numbers<R: Abort>(rt: &R, map: &ParsedMap<'_>, count: u32) {
    is_equal(rt, map.len(), count as usize, "keys");
    for number in 0..=count {
        let key = Key::from(number);
        let _ = comparisons_of(map, &key);
        let found = map.get_with(&key, &mut Steps::new());
        is_equal(rt, found.is_some(), number < count, number);
    }
}

#[test]
fn comparisons(rt: HostRuntime) {
    let _ = comparisons_of(&ParsedMap::new(rt.alloc()), &Key::from("a"));
    for count in [1u32, 3, 4, 1000] {
        let input = numbers(&rt, rt.alloc(), count);
        match made(&rt, parse(rt.alloc(), input.as_bytes(), Config::new())) {
            ParsedValue::Map(map) => has_numbers(&rt, &map, count),
            other => panic!(rt; "no map: {other:?}"),
        }
    }
}

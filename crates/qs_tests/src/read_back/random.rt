//! Random plain data of every kind, written, and read back from its entries in another order.

use crate::build::Build;
use crate::claims::{holds, made, present};
use crate::notation;
use crate::rows::Rows;
use serde_qs::{Config, Data, Serializer, Shape};
use std::alloc::Global;
use std::process::Abort;

/// Pseudo-random numbers.
#[derive(Drop)]
pub struct Random {
    state: u64,
}

impl Random {
    /// Returns the numbers from this seed.
    pub fn new(seed: u64) -> Random {
        Random { state: seed }
    }

    /// Returns a number below the bound, or 0 if the bound is 0.
    pub fn below(&mut self, bound: usize) -> usize {
        self.state = self
            .state
            .wrapping_mul(6_364_136_223_846_793_005)
            .wrapping_add(1_442_695_040_888_963_407);
        (self.state >> 33) as usize % bound.max(1)
    }
}

/// Shapes without parts, each with data.
const SCALARS: [(&str, &str); 24] = [
    ("Unit", "Unit"),
    ("Bool", "Bool:true"),
    ("Bool", "Bool:false"),
    ("U8", "Unsigned:255"),
    ("U16", "Unsigned:65535"),
    ("U32", "Unsigned:4294967295"),
    ("U64", "Unsigned:18446744073709551615"),
    ("I8", "Signed:-128"),
    ("I16", "Signed:32767"),
    ("I32", "Signed:-2147483648"),
    ("I64", "Signed:-9223372036854775808"),
    ("Char", "Char:%C3%A9"),
    ("Char", "Char:%5D"),
    ("Text", "Text:"),
    ("Text", "Text:a%20b%26c%3D%5Bd%5D%2B%25"),
    ("Bytes", "Bytes:%FF%00"),
    ("Option U16", "None"),
    ("Option Text", "Some Text:"),
    ("Option Bool", "Some Bool:false"),
    ("Newtype Text", "Newtype Text:007"),
    ("Enum:2 unit:u unit:%5Bv%5D", "UnitVariant:%5Bv%5D"),
    ("Seq Text", "Seq:0"),
    ("Tuple:0", "Tuple:0"),
    ("Map:Text U8", "Map:0"),
];

/// Names of fields and variants. In form mode the last two aren't plain.
const NAMES: [[&str; 2]; 6] = [
    ["a", "b%20c"],
    ["7", "0"],
    ["%26%3D", "%2B"],
    ["%C3%A9", "%2541"],
    ["1", "a"],
    ["%5Bx%5D", "%5D"],
];

/// What is put together: the words of a shape and of data, in each the names `a` and `b` and the parts `x` and `y`. The pairs of
/// a map are in the order in which they are read.
const WHOLES: [(&str, &str); 13] = [
    ("Struct:<a>:<b> <x> <y>", "Struct:<a>:<b> <x> <y>"),
    ("Struct:<a>:<b>? <x> <y>", "Struct:<a> <x>"),
    ("Tuple:2 <x> <y>", "Tuple:2 <x> <y>"),
    ("Seq <x>", "Seq:3 <x> <x> <x>"),
    (
        "Map:I8 <x>",
        "Map:3 Signed:9 <x> Signed:10 <x> Signed:-3 <x>",
    ),
    ("Map:Text <x>", "Map:2 Text:%2B <x> Text:b%20c <x>"),
    ("Map:Bool <x>", "Map:2 Bool:false <x> Bool:true <x>"),
    ("Map:Char <x>", "Map:2 Char:1 <x> Char:%C3%A9 <x>"),
    ("Map:Variants:p:q <x>", "Map:1 UnitVariant:q <x>"),
    ("Enum:2 unit:u newtype:<a> <x>", "NewtypeVariant:<a> <x>"),
    ("Enum:1 tuple:<a>:2 <x> <y>", "TupleVariant:<a>:2 <x> <y>"),
    (
        "Enum:1 struct:<a>:<b>:c <x> <y>",
        "StructVariant:<a>:<b>:c <x> <y>",
    ),
    ("Newtype Tuple:1 <x>", "Newtype Tuple:1 <x>"),
];

/// The words of a shape and of data that fits it.
#[derive(Drop)]
pub struct Words {
    pub shape: String,
    pub data: String,
}

// Returns how many of the names are plain.
fn plain_names(form: bool) -> usize {
    if form { NAMES.len() - 1 } else { NAMES.len() }
}

// Returns the words with these names and parts.
fn filled<R: Abort>(b: &Build<'_, R>, words: &str, names: [&str; 2], x: &str, y: &str) -> String {
    let mut filled = String::new(b.alloc);
    for piece in words.split('<') {
        let (place, rest) = piece.split_once('>').unwrap_or(("", piece));
        let text = match place {
            "a" => names[0],
            "b" => names[1],
            "x" => x,
            "y" => y,
            _ => "",
        };
        made(b.rt, filled.push_str(text));
        made(b.rt, filled.push_str(rest));
    }
    filled
}

// Returns the words of a random whole of these parts, with one of the first `names` pairs of names.
fn whole<R: Abort>(
    b: &Build<'_, R>,
    random: &mut Random,
    names: usize,
    x: &Words,
    y: &Words,
) -> Words {
    let (shape, data) = present(b.rt, WHOLES.get(random.below(WHOLES.len())), "a whole");
    let names = present(b.rt, NAMES.get(random.below(names)), "names");
    Words {
        shape: filled(b, shape, *names, &x.shape, &y.shape),
        data: filled(b, data, *names, &x.data, &y.data),
    }
}

// Returns a random scalar.
fn scalar<R: Abort>(b: &Build<'_, R>, random: &mut Random) -> Words {
    let scalar = SCALARS.get(random.below(SCALARS.len()));
    let (shape, data) = present(b.rt, scalar, "a scalar");
    Words {
        shape: made(b.rt, String::from_str(b.alloc, shape)),
        data: made(b.rt, String::from_str(b.alloc, data)),
    }
}

// Returns 32 random scalars, as many as a whole five deep has.
fn scalars<R: Abort>(b: &Build<'_, R>, random: &mut Random) -> Vec<Words> {
    let mut scalars = Vec::new(b.alloc);
    for _ in 0..32 {
        let scalar = scalar(b, random);
        made(b.rt, scalars.push(scalar));
    }
    scalars
}

// Returns a whole of wholes of this depth, each with one of the first `names` pairs of names.
fn nested<R: Abort>(b: &Build<'_, R>, random: &mut Random, names: usize, depth: u32) -> Words {
    let mut parts = scalars(b, random);
    for _ in 0..depth {
        parts = wholes(b, random, names, parts);
    }
    present(b.rt, parts.pop(), "a whole")
}

// Returns a whole of each two parts that follow one another.
fn wholes<R: Abort>(
    b: &Build<'_, R>,
    random: &mut Random,
    names: usize,
    mut parts: Vec<Words>,
) -> Vec<Words> {
    let mut wholes = Vec::new(b.alloc);
    for _ in 0..parts.len() / 2 {
        let x = present(b.rt, parts.pop(), "a part");
        let y = present(b.rt, parts.pop(), "a part");
        let whole = whole(b, random, names, &x, &y);
        made(b.rt, wholes.push(whole));
    }
    wholes
}

/// Returns the text of the data.
pub fn written<R: Abort>(b: &Build<'_, R>, config: Config, data: &Data) -> String {
    let mut serializer = Serializer::new(Vec::new(b.alloc), config);
    let outcome = serializer.serialize(b.alloc, data);
    holds(b.rt, outcome.is_ok(), data);
    let bytes = serializer.into_sink().into_writer();
    made(b.rt, String::from_utf8(bytes))
}

// Returns the text with its entries in another order: each is put before or after those so far.
fn shuffled<R: Abort>(b: &Build<'_, R>, random: &mut Random, text: &str) -> String {
    let mut shuffled = String::new(b.alloc);
    for (place, entry) in text.split('&').enumerate() {
        let both = match (place, random.below(2)) {
            (0, _) => format!(in b.alloc; "{entry}"),
            (_, 0) => format!(in b.alloc; "{entry}&{shuffled}"),
            _ => format!(in b.alloc; "{shuffled}&{entry}"),
        };
        shuffled = made(b.rt, both);
    }
    shuffled
}

/// Returns rows in this encoding, for what is nested deep.
pub fn rows<R: Abort>(rt: &R, alloc: Global, form: bool) -> Rows<'_, R> {
    let rows = Rows::new(rt, alloc).deep(10);
    if form { rows.form() } else { rows }
}

/// Returns plain data so deep, and a shape that they fit.
pub fn fitting<R: Abort>(
    b: &Build<'_, R>,
    random: &mut Random,
    config: Config,
    form: bool,
    depth: u32,
) -> (Shape, Data) {
    let words = nested(b, random, plain_names(form), depth);
    let shape = notation::shape(b, &words.shape);
    let data = notation::data(b, &words.data);
    holds(b.rt, data.is_plain(config), &data);
    holds(b.rt, shape.fits(&data), &data);
    (shape, data)
}

// Claims that data from each of some seeds come back, so deep.
fn come_back<R: Abort>(rt: &R, alloc: Global, form: bool, depth: u32) {
    let config = Config::new().max_depth(10).use_form_encoding(form);
    let t = rows(rt, alloc, form);
    let b = &t.build;
    for seed in 0..20 {
        let mut random = Random::new(seed);
        let (shape, data) = fitting(b, &mut random, config, form, depth);
        let text = shuffled(b, &mut random, &written(b, config, &data));
        t.reads(&text, &shape, data);
    }
}

#[test]
fn in_query_mode(rt: HostRuntime) {
    for depth in 1..6 {
        come_back(&rt, rt.alloc(), false, depth);
    }
}

#[test]
fn in_form_mode(rt: HostRuntime) {
    for depth in 1..6 {
        come_back(&rt, rt.alloc(), true, depth);
    }
}

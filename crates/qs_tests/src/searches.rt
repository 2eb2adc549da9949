//! Searches compared with a plain loop, at every length up to 100 and every index.

use crate::claims::{is_equal, made};
use qs_tree::{encode, find_ampersand, find_encoded, find_escape};
use std::process::Abort;

/// What is searched for.
#[derive(Clone, Copy, Debug)]
enum Class {
    Escape,
    Ampersand,
    Encoded { form: bool },
}

const CLASSES: [Class; 4] = [
    Class::Escape,
    Class::Ampersand,
    Class::Encoded { form: false },
    Class::Encoded { form: true },
];

impl Class {
    // Returns what the search returns.
    fn find(self, bytes: &[u8]) -> Option<usize> {
        match self {
            Class::Escape => find_escape(bytes),
            Class::Ampersand => find_ampersand(bytes),
            Class::Encoded { form } => find_encoded(bytes, form),
        }
    }

    // Returns what the plain loop returns.
    fn find_plainly(self, bytes: &[u8]) -> Option<usize> {
        for (index, byte) in bytes.iter().enumerate() {
            if self.has(*byte) {
                return Some(index);
            }
        }
        None
    }

    // Returns whether the byte is of the class.
    fn has(self, byte: u8) -> bool {
        match self {
            Class::Escape => byte == b'+' || byte == b'%',
            Class::Ampersand => byte == b'&',
            Class::Encoded { form: false } => match byte {
                b' ' | b'"' | b'#' | b'<' | b'>' | b'%' | b'+' | b'[' | b']' | b'=' | b'&' => true,
                _ => byte < 0x20 || byte > 0x7e,
            },
            Class::Encoded { form: true } => match byte {
                b'a'..=b'z' | b'A'..=b'Z' | b'0'..=b'9' | b'*' | b'-' | b'.' | b'_' => false,
                _ => true,
            },
        }
    }
}

// Asserts that the search for each class returns what the plain loop does.
fn agree<R: Abort>(rt: &R, bytes: &[u8]) {
    for class in CLASSES {
        let case = (class, bytes);
        is_equal(rt, class.find(bytes), class.find_plainly(bytes), case);
    }
}

// Claims that nothing is found in the bytes.
fn have_none<R: Abort>(rt: &R, bytes: &[u8]) {
    for class in CLASSES {
        is_equal(rt, class.find(bytes), None, (class, bytes));
    }
}

// Claims that each search returns what the plain loop does if one of many equal bytes is replaced.
fn agree_at<R: Abort>(rt: &R, bytes: &mut [u8]) {
    for index in 0..bytes.len() {
        for byte in [b'+', b'%', b'&', b'[', b' '] {
            bytes[index] = byte;
            agree(rt, bytes);
        }
        bytes[index] = b'a';
    }
}

#[test]
fn each_index(rt: HostRuntime) {
    let mut bytes = Vec::new(rt.alloc());
    for _ in 0..=100 {
        have_none(&rt, &bytes);
        agree_at(&rt, &mut bytes);
        made(&rt, bytes.push(b'a'));
    }
}

#[test]
fn each_byte(rt: HostRuntime) {
    let mut bytes = [b'a'; 40];
    for byte in 0..=u8::MAX {
        bytes[20] = byte;
        for class in CLASSES {
            let wanted = if class.has(byte) { Some(20) } else { None };
            is_equal(&rt, class.find(&bytes), wanted, (class, byte));
        }
    }
}

#[test]
fn letters_stand_for_themselves(rt: HostRuntime) {
    let letters = [b'a'; 64];
    for form in [false, true] {
        let mut out = made(&rt, Vec::from_slice(rt.alloc(), b"x="));
        made(&rt, encode(&letters, form, &mut out));
        is_equal(&rt, out.len(), 66, "the length");
        is_equal(&rt, out.get(2..), Some(letters.as_slice()), "letters");
    }
}

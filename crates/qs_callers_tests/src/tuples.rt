//! Tuples that are written and read back, as structs of values without names.

ghost use Rattle.serde_qs.specs.PartTables.{made_of};
ghost use Rattle.std.specs.Prelude.{[]};

use crate::claims::is_written_and_read;
use crate::round_trips::pair_comes_back;
use crate::values::{list, text};
use qs_callers::Pair;
use serde_qs::{Compound, Out, Parts, Result, RoundTrip, Shape, Source, Tuple, WriteResult};
use std::alloc::Global;

/// Two values.
#[derive(Debug, PartialEq, Drop)]
struct Two<A, B>(A, B);

type TwoParts<A, B> = Tuple<(A, (B, ()))>;

impl<A: RoundTrip + Drop, B: RoundTrip + Drop> Compound for Two<A, B> {
    ghost table = { made_of ⟦<TwoParts<A, B> as Parts>⟧.table [] (λ two. record { 0 = (two.0, (two.1, tt)) }) _ };

    fn parts_shape(alloc: Global) -> Result<Shape> {
        TwoParts::<A, B>::shape(alloc, &[])
    }

    fn read(source: Source) -> Result<Two<A, B>> {
        let Tuple((a, (b, ()))) = TwoParts::<A, B>::read(source, &[])?;
        Ok(Two(a, b))
    }

    fn write_parts(&self, out: Out) -> WriteResult {
        out.items((&self.0, (&self.1, ())))
    }
}

/// Three values.
#[derive(Debug, PartialEq, Drop)]
struct Three<A, B, C>(A, B, C);

type ThreeParts<A, B, C> = Tuple<(A, (B, (C, ())))>;

impl<A: RoundTrip + Drop, B: RoundTrip + Drop, C: RoundTrip + Drop> Compound for Three<A, B, C> {
    ghost table = { made_of ⟦<ThreeParts<A, B, C> as Parts>⟧.table [] (λ three. record { 0 = (three.0, (three.1, (three.2, tt))) }) _ };

    fn parts_shape(alloc: Global) -> Result<Shape> {
        ThreeParts::<A, B, C>::shape(alloc, &[])
    }

    fn read(source: Source) -> Result<Three<A, B, C>> {
        let Tuple((a, (b, (c, ())))) = ThreeParts::<A, B, C>::read(source, &[])?;
        Ok(Three(a, b, c))
    }

    fn write_parts(&self, out: Out) -> WriteResult {
        out.items((&self.0, (&self.1, (&self.2, ()))))
    }
}

#[test]
fn tuples_of_scalars(rt: HostRuntime) {
    let alloc = rt.alloc();
    let pair = Pair {
        a: Three(1u8, 2u8, 3u8),
        b: Two(text(&rt, alloc, "first"), text(&rt, alloc, "second")),
    };
    let wanted = "a[0]=1&a[1]=2&a[2]=3&b[0]=first&b[1]=second";
    is_written_and_read(&rt, alloc, pair, wanted);
}

#[test]
fn tuples_of_many_types(rt: HostRuntime) {
    let alloc = rt.alloc();
    let answer = Two(42u32, text(&rt, alloc, "answer"));
    let float = Three(true, text(&rt, alloc, "3.14"), 255u8);
    pair_comes_back(&rt, alloc, answer, float);
    let named = Three(100u32, text(&rt, alloc, "tuple struct"), false);
    pair_comes_back(&rt, alloc, named, ());
}

#[test]
fn tuples_and_lists(rt: HostRuntime) {
    let alloc = rt.alloc();
    let within = Two(text(&rt, alloc, "nested"), -100i32);
    let nested = Two(within, list(&rt, alloc, [1u8, 2, 3]));
    let pairs = list(&rt, alloc, [Two(1u8, 2u8), Two(3, 4), Two(5, 6)]);
    pair_comes_back(&rt, alloc, nested, pairs);
}

//! The walk over data.

ghost use Rattle.std.specs.Prelude.{◌≡◌, [], Err};
ghost use Rattle.qs_spec.specs.Entry.{entries};
ghost use Rattle.qs_data.specs.data.Views.{data_of, values_in, pairs_in, members_in};
ghost use Rattle.qs_data.specs.write.Parts.{data_part, elements_part, element, pairs_part, members_part, under};
ghost use Rattle.qs_data.specs.write.Scalars.{scalar_text};
ghost use Rattle.qs_data.specs.write.Writes.{IsAt, Writes, WritesTo, state_in};
ghost use Rattle.qs_data.specs.write.State.{IsUnallocated};
ghost use Rattle.qs_data.specs.declared.write.stop.Stop.TheVariants.{OutOfMemory};

use crate::data::Data;
use crate::write::entry::{Stream, Walk, put, put_empty};
use crate::write::scalar::Scalar;
use crate::write::sink::Sink;
use crate::write::stop::Stop;
use qs_tree::{ArrayFormat, Config};

/// Writes the entries of the data from the top, under this configuration.
pub(crate) fn write_all<S: Sink>(
    stream: &mut Stream<S>,
    walk: &mut Walk,
    config: Config,
    datum: &Data,
) -> Result<(), Stop>
    requires { IsAt config [] walk.old }
    ensures writes { Writes result config [] (state_in S.taken S.failed S.writer_name stream.old) (state_in S.taken S.failed S.writer_name stream.new) walk.new
        (entries config (data_of datum.now)) }
    ensures unallocated { IsUnallocated (data_of datum.now) → result ≡ Err OutOfMemory → ⊥ }
{
    write_data(stream, walk, datum)
}

/// Writes the entries of the data at the walk's path.
#[cycle(write)]
#[tactic(auto, using(crate::proofs::lemmas::data::Levels::levels), unfolding(qs_spec::specs::Entry::entries_at))]
pub(crate) fn write_data<'a, S: Sink>(
    stream: &mut Stream<S>,
    walk: &mut Walk,
    datum: &'a Data,
) -> Result<(), Stop>
    ensures writes { WritesTo S.taken S.failed S.writer_name result stream.old stream.new walk.old walk.new (data_part (data_of datum.now)) }
    ensures unallocated { IsUnallocated (data_of datum.now) → walk.old.text ≡ [] → result ≡ Err OutOfMemory → ⊥ }
{
    match datum {
        Data::Unit => put_empty(stream, walk),
        Data::None | Data::Bool(_) | Data::Unsigned(_) | Data::Signed(_) | Data::Char(_) => {
            put(stream, walk, Scalar::of(datum))
        }
        Data::Text(_) | Data::Bytes(_) | Data::UnitVariant(_) => {
            put(stream, walk, Scalar::of(datum))
        }
        Data::Some(held) | Data::Newtype(held) => write_data(stream, walk, held),
        Data::Seq(items) | Data::Tuple(items) => {
            if items.is_empty() {
                return put_empty(stream, walk);
            }
            write_elements(stream, walk, items)
        }
        Data::Map(pairs) => {
            if pairs.is_empty() {
                return put_empty(stream, walk);
            }
            write_pairs(stream, walk, pairs)
        }
        Data::Struct(members) => write_members(stream, walk, members),
        Data::NewtypeVariant(name, held) => {
            write_under(stream, walk, Scalar::Bytes(name.as_bytes()), held)
        }
        Data::TupleVariant(name, items) => {
            write_tuple_variant(stream, walk, name.as_bytes(), items)
        }
        Data::StructVariant(name, members) => {
            write_struct_variant(stream, walk, name.as_bytes(), members)
        }
    }
}

// Writes the elements of a list, in order.
#[cycle(write)]
fn write_elements<'a, S: Sink>(
    stream: &mut Stream<S>,
    walk: &mut Walk,
    items: &'a Vec<Data>,
) -> Result<(), Stop>
    ensures writes { WritesTo S.taken S.failed S.writer_name result stream.old stream.new walk.old walk.new (elements_part 0 (values_in items.now.items)) }
{
    for (place, item) in items.iter().enumerate() {
        write_element(stream, walk, place, item)?;
    }
    Ok(())
}

// Writes the element at this index of its list.
#[cycle(write)]
fn write_element<'a, S: Sink>(
    stream: &mut Stream<S>,
    walk: &mut Walk,
    place: usize,
    item: &'a Data,
) -> Result<(), Stop>
    ensures writes { WritesTo S.taken S.failed S.writer_name result stream.old stream.new walk.old walk.new (element place (data_part (data_of item.now))) }
{
    match walk.config.get_array_format() {
        ArrayFormat::Indexed => { write_under(stream, walk, Scalar::Unsigned(place as u64), item) }
        ArrayFormat::EmptyIndexed => { write_under(stream, walk, Scalar::Bytes(&[]), item) }
        ArrayFormat::Unindexed => write_data(stream, walk, item),
    }
}

// Writes the pairs of a map, in order. A key is tested before the path is.
#[cycle(write)]
fn write_pairs<'a, S: Sink>(
    stream: &mut Stream<S>,
    walk: &mut Walk,
    pairs: &'a Vec<(Data, Data)>,
) -> Result<(), Stop>
    ensures writes { WritesTo S.taken S.failed S.writer_name result stream.old stream.new walk.old walk.new (pairs_part (pairs_in pairs.now.items)) }
{
    for pair in pairs {
        let Some(key) = Scalar::of(&pair.0) else {
            return Err(Stop::BadKey);
        };
        write_under(stream, walk, key, &pair.1)?;
    }
    Ok(())
}

// Writes the members of a struct, in order.
#[cycle(write)]
fn write_members<'a, S: Sink>(
    stream: &mut Stream<S>,
    walk: &mut Walk,
    members: &'a Vec<(String, Data)>,
) -> Result<(), Stop>
    ensures writes { WritesTo S.taken S.failed S.writer_name result stream.old stream.new walk.old walk.new (members_part (members_in members.now.items)) }
{
    for member in members {
        write_under(stream, walk, Scalar::Bytes(member.0.as_bytes()), &member.1)?;
    }
    Ok(())
}

// Writes the elements of a variant under its name.
#[cycle(write)]
fn write_tuple_variant<'a, S: Sink>(
    stream: &mut Stream<S>,
    walk: &mut Walk,
    name: &'a [u8],
    items: &'a Vec<Data>,
) -> Result<(), Stop>
    ensures writes { WritesTo S.taken S.failed S.writer_name result stream.old stream.new walk.old walk.new (under name.now (elements_part 0 (values_in items.now.items))) }
{
    let len = walk.enter(Scalar::Bytes(name))?;
    write_elements(stream, walk, items)?;
    walk.leave(len);
    Ok(())
}

// Writes the members of a variant under its name.
#[cycle(write)]
fn write_struct_variant<'a, S: Sink>(
    stream: &mut Stream<S>,
    walk: &mut Walk,
    name: &'a [u8],
    members: &'a Vec<(String, Data)>,
) -> Result<(), Stop>
    ensures writes { WritesTo S.taken S.failed S.writer_name result stream.old stream.new walk.old walk.new (under name.now (members_part (members_in members.now.items))) }
{
    let len = walk.enter(Scalar::Bytes(name))?;
    write_members(stream, walk, members)?;
    walk.leave(len);
    Ok(())
}

// Writes the data under one more segment.
#[cycle(write)]
fn write_under<'a, S: Sink>(
    stream: &mut Stream<S>,
    walk: &mut Walk,
    segment: Scalar<'a>,
    part: &'a Data,
) -> Result<(), Stop>
    ensures writes { WritesTo S.taken S.failed S.writer_name result stream.old stream.new walk.old walk.new (under (scalar_text segment.entry) (data_part (data_of part.now))) }
{
    let len = walk.enter(segment)?;
    write_data(stream, walk, part)?;
    walk.leave(len);
    Ok(())
}

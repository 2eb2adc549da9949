//! Explaining each field that isn't read.

ghost use Rattle.std.specs.Prelude.{◌≡◌, ◌∷◌, IfOk, Some};
ghost use Rattle.qs_spec.specs.Config.{are_rejected};
ghost use Rattle.qs_spec.specs.Segment.Segment.{Str};
ghost use Rattle.qs_spec.specs.Shape as s;
ghost use Rattle.qs_spec.specs.Tree.{Tree};
ghost use Rattle.qs_tree.specs.tree.Views.{tree_of};
ghost use Rattle.qs_data.specs.failure.Mismatch.{path_of};
ghost use Rattle.qs_data.specs.failure.Parts.{field_keys};
ghost use Rattle.qs_data.specs.read.Keys.{NumbersFit, entries_view};
ghost use Rattle.qs_data.specs.shape.Views.{field_of, fields_in, shape_of};
ghost use Rattle.qs_explain.specs.Fields.{ExplainsFields, OfKeys, OfStruct, is_of_whole};
ghost use Rattle.qs_explain.specs.internal.Parsed.{FieldsOfParsed, FieldsOfTree, IsFaultUnder, IsFieldFault};

use crate::explaining::explain_tree;
use crate::explanation::Explanation;
use qs_data::{
    Config, Error, Failure, Field, Found, Mismatch, NodeEntries, Segment, Shape, Unread,
    read_with_path,
};
use qs_tree::{ParsedValue, parse};
use std::alloc::{AllocError, Global};

/// Explains each field of a struct that isn't read, for a page that shows an error beside each of its fields. Returns no explanation if
/// and only if the shape reads the input.
///
/// The explanations are in the order of the fields, one for each field that isn't read: a [`Mismatch`] whose path begins with the field's
/// name, and leads to the first part of the field that isn't read. A field that two keys name has none: the whole is at fault. If the
/// whole is at fault, for example because an unknown key is rejected, the explanation of [`explain`](crate::explain) is in front of them.
/// It is the only one if no single field is at fault, if the shape isn't a struct, if the input has no tree, or if fields are read by their
/// indices.
///
/// The input is parsed once and read twice. Parsing, reading and the explanations allocate; the only error is a failed allocation.
///
/// ```
/// for wrong in explain_fields(alloc, Config::new(), &shape, b"age=300&zip=x")? {
///     println!(rt; "{wrong}")?; // age: expected u8, found the text "300", and then zip: expected u32, found the text "x"
/// }
/// ```
pub fn explain_fields(
    alloc: Global,
    config: Config,
    shape: &Shape,
    input: &[u8],
) -> Result<Vec<Explanation>, AllocError>
    ensures { IfOk result (λ all. ExplainsFields config (shape_of shape.now) input.now all.items) }
{
    of_parsed(alloc, config, shape, parse(alloc, input, config))
}

// Explains the fields of what was parsed.
fn of_parsed(
    alloc: Global,
    config: Config,
    shape: &Shape,
    parsed: Result<ParsedValue<'_>, Error>,
) -> Result<Vec<Explanation>, AllocError>
    ensures { IfOk result (λ all. FieldsOfParsed (are_rejected config.duplicates) (shape_of shape.now) parsed.entry all.items) }
{
    match parsed {
        Ok(tree) => of_tree(alloc, config, shape, &tree),
        Err(Error::OutOfMemory) => Err(AllocError),
        Err(error) => Ok(vec![in alloc; Explanation::Syntax(error)]?),
    }
}

// Explains the fields of a tree.
fn of_tree(
    alloc: Global,
    config: Config,
    shape: &Shape,
    tree: &ParsedValue<'_>,
) -> Result<Vec<Explanation>, AllocError>
    ensures { IfOk result (λ all. FieldsOfTree (are_rejected config.duplicates) (shape_of shape.now) (tree_of tree.now) all.items) }
{
    let Some(first) = explain_tree(alloc, config, shape, tree)? else {
        return Ok(Vec::new(alloc));
    };
    let mut all = of_struct(alloc, config, shape, tree)?;
    if all.is_empty() || is_of_whole(&first) {
        all.insert(0, first)?;
    }
    Ok(all)
}

// Returns whether the whole is at fault, and not one of its parts.
fn is_of_whole(explanation: &Explanation) -> bool
    ensures { result ≡ is_of_whole explanation.now }
{
    match explanation {
        Explanation::Mismatch(mismatch) => mismatch.path.is_empty(),
        Explanation::Syntax(_) => true,
        Explanation::NoPairs => true,
    }
}

// Explains the fields of a node, if its shape is a struct and its fields are read by their names.
fn of_struct(
    alloc: Global,
    config: Config,
    shape: &Shape,
    node: &ParsedValue<'_>,
) -> Result<Vec<Explanation>, AllocError>
    ensures { IfOk result (λ all. OfStruct (are_rejected config.duplicates) (shape_of shape.now) (tree_of node.now) all.items) }
{
    match shape {
        Shape::Struct(fields) => of_fields(alloc, config, fields, node),
        Shape::StrictStruct(fields) => of_fields(alloc, config, fields, node),
        _ => Ok(Vec::new(alloc)),
    }
}

// Explains the fields of a node that are read by their names.
fn of_fields(
    alloc: Global,
    config: Config,
    fields: &Vec<Field>,
    node: &ParsedValue<'_>,
) -> Result<Vec<Explanation>, AllocError>
    ensures { IfOk result (λ all. (u : s.UnknownKeys) → let fs = fields_in fields.now.items in
        OfKeys (are_rejected config.duplicates) (s.Shape.struct u fs) (tree_of node.now) fs (field_keys (tree_of node.now)) all.items) }
{
    match node {
        ParsedValue::NoValue => among(alloc, config, fields, NodeEntries::Empty),
        ParsedValue::Null => among(alloc, config, fields, NodeEntries::Empty),
        ParsedValue::Map(map) => among(alloc, config, fields, NodeEntries::Map(map)),
        _ => Ok(Vec::new(alloc)),
    }
}

// Explains the fields that aren't read among these keys.
fn among(
    alloc: Global,
    config: Config,
    fields: &Vec<Field>,
    entries: NodeEntries<'_, '_>,
) -> Result<Vec<Explanation>, AllocError>
    ensures { IfOk result (λ all. (u : s.UnknownKeys) (n : Tree) → let fs = fields_in fields.now.items in let es = Some (entries_view entries.entry) in
        field_keys n ≡ es → OfKeys (are_rejected config.duplicates) (s.Shape.struct u fs) n fs es all.items) }
{
    let _are_text = entries.keys_are_text();
    let mut all = Vec::new(alloc);
    for field in fields {
        if let Some(mismatch) = fault_of(alloc, config, field, entries)? {
            all.push(Explanation::Mismatch(mismatch))?;
        }
    }
    Ok(all)
}

// Returns what is wrong with a field that one key names, or that is missing.
fn fault_of(
    alloc: Global,
    config: Config,
    field: &Field,
    entries: NodeEntries<'_, '_>,
) -> Result<Option<Mismatch>, AllocError>
    requires { NumbersFit (entries_view entries) }
    ensures { let f = field_of field.now in
        IfOk result (IsFieldFault (are_rejected config.duplicates) f.0 f.1 f.2 (entries_view entries.entry)) }
{
    match entries.find(&field.name) {
        Found::One(node) => fault_at(alloc, config, field, node),
        Found::Several => Ok(None),
        Found::Missing if field.optional || field.shape.is_option() => Ok(None),
        Found::Missing => fault_at(alloc, config, field, &ParsedValue::Uninitialized),
    }
}

// Returns what is wrong with the value of a field.
fn fault_at(
    alloc: Global,
    config: Config,
    field: &Field,
    node: &ParsedValue<'_>,
) -> Result<Option<Mismatch>, AllocError>
    ensures { let f = field_of field.now in
        IfOk result (IsFaultUnder (are_rejected config.duplicates) f.0 f.1 (tree_of node.now)) }
{
    match read_with_path(alloc, config, &field.shape, node) {
        Ok(_) => Ok(None),
        Err(Failure::OutOfMemory) => Err(AllocError),
        Err(Failure::Unread(unread)) => {
            let Unread { mismatch, error: _ } = Box::into_inner(unread);
            Ok(Some(under(alloc, &field.name, mismatch)?))
        }
    }
}

// Returns the mismatch with a name in front of its path.
fn under(alloc: Global, name: &str, mismatch: Mismatch) -> Result<Mismatch, AllocError>
    ensures path { IfOk result (λ m. path_of m ≡ Str name.now ∷ path_of mismatch) }
    ensures problem { IfOk result (λ m. m.problem ≡ mismatch.problem) }
{
    let Mismatch { mut path, problem } = mismatch;
    path.insert(0, Segment::Key(name.as_bytes().to_vec(alloc)?))?;
    Ok(Mismatch { path, problem })
}

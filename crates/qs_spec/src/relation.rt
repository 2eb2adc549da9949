//! Laws of reading by a shape.

ghost use Rattle.std.specs.Prelude.{◌≡◌, ◌↔◌, Bool, true, Some, None};
ghost use Rattle.qs_spec.specs.Tree.{Tree};
ghost use Rattle.qs_spec.specs.Data.{Data};
ghost use Rattle.qs_spec.specs.Shape.{Shape, is_distinct};
ghost use Rattle.qs_spec.specs.internal.ReadFunction.{reads};
ghost use Rattle.qs_spec.specs.Relation.{Reads};

/// For a distinct shape the relation holds exactly if the function returns that data.
pub fn reads_is_the_relation()
    ensures where_some { (reject_duplicates : Bool) (shape : Shape) (node : Tree) (d : Data) → is_distinct shape ≡ true → (Reads reject_duplicates shape node d ↔ (reads reject_duplicates shape node ≡ Some d)) }
    ensures where_none { (reject_duplicates : Bool) (shape : Shape) (node : Tree) → is_distinct shape ≡ true → (((d : Data) → Reads reject_duplicates shape node d → ⊥) ↔ (reads reject_duplicates shape node ≡ None)) }
{}

/// For a distinct shape at most one data is related to a node.
pub fn one_data()
    ensures { (reject_duplicates : Bool) (shape : Shape) (node : Tree) (d e : Data) → is_distinct shape ≡ true → Reads reject_duplicates shape node d → Reads reject_duplicates shape node e → d ≡ e }
{}

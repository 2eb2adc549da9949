//! The law of reading: what a value's steps gave.

ghost use Rattle.std.specs.Prelude.{◌≡◌, Some};
ghost use Rattle.qs_spec.specs.Data.{Data};
ghost use Rattle.qs_spec.specs.Shape.{Shape};
ghost use Rattle.qs_data.specs.read.Reads.{reads};
ghost use Rattle.qs_serde.specs.Places.{tree_at};
ghost use Rattle.qs_serde.specs.Runs.{IsReady, Run};
ghost use Rattle.qs_serde.specs.Steps.{IsPlain};
ghost use Rattle.qs_serde.specs.declared.reading.format.TreeFormat.{TreeFormat};

/// If the steps of a value are those of a shape, it is what the shape reads. It does nothing at run time.
///
/// ```
/// values_of_steps(); // its clause is the law
/// ```
#[tactic(auto, using(crate::proofs::Runs::exact_run))]
pub fn values_of_steps()
    ensures { (shape : Shape) (old new : TreeFormat) (x : Data) → Run shape old x new → IsPlain old → IsReady old → reads old.reader.reject_duplicates shape (tree_at old) ≡ Some x }
{}

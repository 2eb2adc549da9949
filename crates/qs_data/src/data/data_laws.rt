//! Laws of data. Call one to use it in a proof; it does nothing.
ghost use Rattle.std.specs.Prelude.{◌≡◌, IsTrue, ◌↔◌};
ghost use Rattle.qs_data.specs.declared.data.data.Data.{Data};
ghost use Rattle.qs_data.specs.data.Equality.{data_eq};
ghost use Rattle.qs_data.specs.data.Views.{data_of};

/// Two `Data` values are equal by `==` exactly if they are the same data of the definitions: the capacity of a vector doesn't
/// count.
///
/// ```
/// let same = a == b;
/// equality_of_data(); // from here on a proof knows what `same` says
/// ```
pub fn equality_of_data()
    ensures { (a b : Data) → IsTrue (data_eq a b) ↔ data_of a ≡ data_of b }
{}

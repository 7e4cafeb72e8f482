//! Laws of the table: a property of an object is known exactly where a row has its name, and each name stands once.
ghost use Rattle.std.specs.Prelude.{◌≡◌, ◌↔◌, ℕ, List, IsSome, map, true};
ghost use Rattle.conf_table.specs.declared.place.Place.{Place as AnyPlace};
ghost use Rattle.conf_table.specs.Table.{rows_of, under_of, IsNameOf, IsObjectPlace, stand_once};

/// A property of an object leads somewhere exactly where a row of the object has its name.
pub fn known_by_rows()
    ensures { (place : AnyPlace) (k : List ℕ) → IsObjectPlace place → IsSome (under_of place k) ↔ IsNameOf k (rows_of place) }
{}

/// Each name stands once in the rows of a place.
pub fn one_row_a_name()
    ensures { (place : AnyPlace) → stand_once (map (λ r. r.name) (rows_of place)) ≡ true }
{}

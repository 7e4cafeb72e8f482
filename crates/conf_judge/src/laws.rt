//! Laws of lists: what their items are, and which numbers the ends of a range are, is what the table says.
#![tactic(auto, using(crate::proofs::Entries::items_by_entries, crate::proofs::Entries::ends_by_entries, crate::proofs::Entries::numbers_by_entries))]

ghost use Rattle.std.specs.Prelude.{◌≡◌, ◌≢◌, ℤ, Some, true};
ghost use Rattle.serde_json.specs.Data.{Data};
ghost use Rattle.conf_tree.specs.Reading.{whole_of};
ghost use Rattle.conf_table.specs.declared.place.Place.{Place as AnyPlace};
ghost use Rattle.conf_table.specs.declared.place.Place.TheVariants.{Range};
ghost use Rattle.conf_table.specs.declared.row.Content.TheVariants.{Whole};
ghost use Rattle.conf_table.specs.declared.row.Entries.{Entries as AnyEntries};
ghost use Rattle.conf_table.specs.Table.{entries_of, is_by_index};
ghost use Rattle.conf_judge.specs.Numbers.{all_numbers, end_of};
ghost use Rattle.conf_judge.specs.Places.{item_content};

/// Each item of a list is what the table says that the list holds. The ends of a range are judged with the range: they are the
/// numbers that the table says, which are all that a configuration can hold.
pub fn items_by_entries()
    ensures items { (place : AnyPlace) (entries : AnyEntries) → place ≢ Range → entries_of place ≡ Some entries → is_by_index entries.keys ≡ true → item_content place ≡ entries.content }
    ensures ends { (entries : AnyEntries) (low high : ℤ) (d : Data) → entries_of Range ≡ Some entries → entries.content ≡ Whole low high → end_of d ≡ whole_of low high d }
    ensures numbers { (entries : AnyEntries) (low high : ℤ) → entries_of Range ≡ Some entries → entries.content ≡ Whole low high → (all_numbers.low ≡ low) × (all_numbers.high ≡ high) }
{}

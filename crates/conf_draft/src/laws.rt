//! Laws of what is left out: an integer, and a size of packets, is then what the rows of the table say.
#![tactic(auto, using(crate::proofs::LeftOut::alignment_by_row, crate::proofs::LeftOut::base_by_row, crate::proofs::LeftOut::size_by_row))]

ghost use Rattle.std.specs.Prelude.{◌≡◌, List, Option, Some, None, codes, true, option_and_then};
ghost use Rattle.serde_json.specs.Data.{Members};
ghost use Rattle.conf_table.specs.declared.place.Place.{Place as AnyPlace};
ghost use Rattle.conf_table.specs.declared.place.Place.TheVariants.{PacketFeatures};
ghost use Rattle.conf_table.specs.Table.{presence_under};
ghost use Rattle.conf_values.specs.Words.{word_in, base_words};
ghost use Rattle.conf_draft.specs.declared.defaults.Given.{Given as WhatIsThere};
ghost use Rattle.conf_draft.specs.Alignments.{alignment};
ghost use Rattle.conf_draft.specs.Defaults.{IsIntegerPlace, alignment_told, base_told, is_on};
ghost use Rattle.conf_draft.specs.Integers.{align_of, base_of, size_of};
ghost use Rattle.conf_draft.specs.Lookups.{word};

/// An integer, or that of an enumeration, without an alignment or a display base of its own has those of its rows.
pub fn integers_by_rows()
    ensures alignment { (place : AnyPlace) (ms : Members) → IsIntegerPlace place → alignment (codes "alignment") ms ≡ None → alignment_told (size_of ms) (presence_under place (codes "alignment")) ≡ Some (align_of ms) }
    ensures base { (place : AnyPlace) (ms : Members) → IsIntegerPlace place → word (codes "preferred-display-base") ms ≡ None → base_told (presence_under place (codes "preferred-display-base")) ≡ Some (base_of ms) }
{}

/// A size, which is always on, is on by its row too.
pub fn sizes_by_rows()
    ensures total { (given : WhatIsThere) → is_on PacketFeatures (codes "total-size-field-type") given ≡ true }
    ensures content { (given : WhatIsThere) → is_on PacketFeatures (codes "content-size-field-type") given ≡ true }
{}

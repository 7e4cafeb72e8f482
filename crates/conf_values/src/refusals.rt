//! Laws of refusals of single values: whatever is refused is not what its place asks for, in the way that the flaw tells of.
#![tactic(auto, using(crate::proofs::LeafFlawLaws::name_refused, crate::proofs::LeafFlawLaws::plain_name_refused, crate::proofs::LeafFlawLaws::object_refused, crate::proofs::LeafFlawLaws::list_refused, crate::proofs::LeafFlawLaws::text_refused, crate::proofs::LeafFlawLaws::flag_refused, crate::proofs::LeafFlawLaws::whole_refused))]

ghost use Rattle.std.specs.Prelude.{◌≡◌, ℕ, ℤ, List, Err};
ghost use Rattle.serde_json.specs.Data.{Data};
ghost use Rattle.conf_tree.specs.Flaw.{Flaw};
ghost use Rattle.conf_tree.specs.Reading.{object_of, list_of, text_of, flag_of, whole_of};
ghost use Rattle.conf_values.specs.Name.{name_of, plain_name_of};
ghost use Rattle.conf_values.specs.LeafFlaws.{IsNoObject, IsNoList, IsNoText, IsNoFlag, IsNoWhole, IsNoName, IsNoPlainName};

/// A name that is refused is no identifier, too long or, where it may not be one, a reserved word.
pub fn names_refused()
    ensures names { (name : List ℕ) (flaw : Flaw) → name_of name ≡ Err flaw → IsNoName name flaw }
    ensures plain_names { (name : List ℕ) (flaw : Flaw) → plain_name_of name ≡ Err flaw → IsNoPlainName name flaw }
{}

/// What is refused as an object, a list, a text or a flag is of another kind.
pub fn kinds_refused()
    ensures objects { (d : Data) (flaw : Flaw) → object_of d ≡ Err flaw → IsNoObject d flaw }
    ensures lists { (d : Data) (flaw : Flaw) → list_of d ≡ Err flaw → IsNoList d flaw }
    ensures texts { (d : Data) (flaw : Flaw) → text_of d ≡ Err flaw → IsNoText d flaw }
    ensures flags { (d : Data) (flaw : Flaw) → flag_of d ≡ Err flaw → IsNoFlag d flaw }
{}

/// What is refused as a number is none, is not whole, or is outside its bounds.
pub fn numbers_refused()
    ensures wholes { (low high : ℤ) (d : Data) (flaw : Flaw) → whole_of low high d ≡ Err flaw → IsNoWhole low high d flaw }
{}

//! A resolved configuration whose objects have no flaw says something, which the rules allow where it passes no limit; and what a
//! walk over its objects tells of is what the table calls a flaw.
ghost use Rattle.std.specs.Prelude.{◌≡◌, ◌≤◌, ℕ, pos, true, List, [], Contains, Option, Some, IsSome, Err, codes};
ghost use Rattle.serde_json.specs.Data.{Data, Members};
ghost use Rattle.conf_tree.specs.Flaw.{Flaw};
ghost use Rattle.conf_tree.specs.Order.{Ascends};
ghost use Rattle.conf_tree.specs.Walk.{flaws, refusal};
ghost use Rattle.conf_tree.specs.declared.limits.TheConstants.{MAX_LEVELS};
ghost use Rattle.conf_table.specs.declared.place.Place.TheVariants.{Root};
ghost use Rattle.conf_table.specs.declared.row.Content.TheVariants.{At};
ghost use Rattle.conf_judge.specs.Flaws.{configuration_flaws};
ghost use Rattle.conf_judge.specs.Leaves.{is_power_of_two};
ghost use Rattle.conf_judge.specs.Limits.{configuration_limits};
ghost use Rattle.conf_draft.specs.Integers.{align_of as align_of_integer};
ghost use Rattle.conf_draft.specs.Lookups.{natural};
ghost use Rattle.conf_draft.specs.Structures.{align_of as align_of_structure};
ghost use Rattle.conf_draft.specs.Traces.{draft_of};
ghost use Rattle.conf_draft.specs.declared.draft.Draft.{Draft};
ghost use Rattle.ctf_types.specs.AllowedConfig.{IsConfig};
ghost use Rattle.ctf_types.specs.declared.limits.TheConstants.{LARGEST_ALIGN};
ghost use Rattle.conf_laws.specs.Rules.{KeepsRules};
ghost use Rattle.conf_laws.specs.TableFlaws.{IsFlawOf};
ghost use Rattle.conf_laws.specs.TableLimits.{PassesLimitOf};
ghost use Rattle.conf_laws.specs.TreeOrder.{IsTreeFlaw, IsFirstInTree};
ghost use Rattle.conf_laws.specs.WalkOrder.{IsFirstOf, IsFirstLimitOf};

/// What has no flaw says something.
#[tactic(auto, using(crate::proofs::Traces::tree_said))]
pub fn sound_trees_say_something()
    ensures { (number : Option (List ℕ)) (d : Data) → configuration_flaws d ≡ [] → IsSome (draft_of number d) }
{}

/// A power of two up to the largest alignment is read as the very alignment that it is, of an integer and of a structure.
#[tactic(auto, using(crate::proofs::Numbers::integer_kept, crate::proofs::Numbers::structure_kept))]
pub fn alignments_are_kept()
    ensures integers { (ms : Members) (n : ℕ) → natural (codes "alignment") ms ≡ Some n → is_power_of_two (pos n) ≡ true → n ≤ LARGEST_ALIGN → align_of_integer ms ≡ n }
    ensures structures { (ms : Members) (n : ℕ) → natural (codes "minimum-alignment") ms ≡ Some n → is_power_of_two (pos n) ≡ true → n ≤ LARGEST_ALIGN → align_of_structure ms ≡ n }
{}

/// What has no flaw, passes no limit and keeps the rules over the whole says a configuration that the rules allow.
pub fn sound_drafts_are_allowed()
    ensures { (number : Option (List ℕ)) (d : Data) (draft : Draft) → Ascends d → configuration_flaws d ≡ [] → configuration_limits d ≡ [] → draft_of number d ≡ Some draft → KeepsRules draft.config → IsConfig draft.config }
{}

/// Each flaw that a walk over the objects tells of is one by the table.
#[tactic(auto, using(crate::proofs::TableFlawLaws::flaw_told))]
pub fn each_flaw_is_one()
    ensures { (d : Data) (flaw : Flaw) → Contains (configuration_flaws d) flaw → IsFlawOf [] (At Root) d flaw }
{}

/// Where a walk over the objects tells of nothing, the table knows of no flaw.
#[tactic(auto, using(crate::proofs::TableFlawLaws::none_left))]
pub fn no_flaw_is_left()
    ensures { (d : Data) (flaw : Flaw) → configuration_flaws d ≡ [] → ¬ IsFlawOf [] (At Root) d flaw }
{}

/// Each limit that a walk over the objects tells of is one that the configuration passes by the table.
#[tactic(auto, using(crate::proofs::TableLimitLaws::limit_told))]
pub fn each_limit_is_passed()
    ensures { (d : Data) (flaw : Flaw) → Contains (configuration_limits d) flaw → PassesLimitOf (At Root) d flaw }
{}

/// Where a walk over the objects tells of no limit, the configuration passes none by the table.
#[tactic(auto, using(crate::proofs::TableLimitLaws::none_passed))]
pub fn no_limit_is_passed()
    ensures { (d : Data) (flaw : Flaw) → configuration_limits d ≡ [] → ¬ PassesLimitOf (At Root) d flaw }
{}

/// The flaw that a walk over the objects answers is one by the table, and stands before each other one in the order of the walk,
/// and of those at its own turn by place and kind, where the names of each object are in byte order.
#[tactic(auto, using(crate::proofs::FirstFlawLaws::first_found))]
pub fn first_flaw_is_first()
    ensures { (d : Data) (flaw : Flaw) → Ascends d → refusal (configuration_flaws d) ≡ Err flaw → IsFirstOf d flaw }
{}

/// The limit that a walk over the objects answers is one that the configuration passes by the table, and stands before each other
/// one in the order of the walk, where the names of each object are in byte order.
#[tactic(auto, using(crate::proofs::FirstLimitLaws::first_limit_found))]
pub fn first_limit_is_first()
    ensures { (d : Data) (flaw : Flaw) → Ascends d → refusal (configuration_limits d) ≡ Err flaw → IsFirstLimitOf d flaw }
{}

/// The flaw that a walk over a value as a tree answers is one, and stands before each other one: of an object or a list before what it
/// holds, and then of properties in byte order of their names and of items by index, where the names of each object are in that order.
#[tactic(auto, using(crate::proofs::TreeFlawLaws::first_tree_flaw))]
pub fn first_tree_flaw_is_first()
    ensures { (d : Data) (flaw : Flaw) → Ascends d → refusal (flaws d MAX_LEVELS) ≡ Err flaw → IsFirstInTree d flaw }
{}

/// Where a walk over a value as a tree answers none, the value has no flaw.
pub fn no_tree_flaw_is_left()
    ensures { (d : Data) (flaw : Flaw) → Ascends d → flaws d MAX_LEVELS ≡ [] → ¬ IsTreeFlaw d flaw }
{}

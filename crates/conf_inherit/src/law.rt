//! Laws of look-up along inheritance.
#![tactic(auto, using(crate::proofs::LookedUp::one_look, crate::proofs::RoundLemmas::resolution_sound, crate::proofs::RefusalLemmas::resolved_or_refused))]

ghost use Rattle.std.specs.Prelude.{◌≡◌, ◌↔◌, ◌⊎◌, ℕ, List, [], None, Ok, Err, true, false};
ghost use Rattle.serde_json.specs.{Data.{Data, Members, no_members}, Events.members_len};
ghost use Rattle.conf_tree.specs.{Flaw.Flaw, Walk.{IsTreeOf, refusal}, declared.fault_kind.FaultKind.FaultKind};
ghost use Rattle.conf_table.specs.declared.place.Place.{Place};
ghost use Rattle.conf_inherit.specs.{Circle.Walks, Faults.{Leads, RefusalHolds}, Flaws.{flaws, type_flaws}, Laying.lay, Limits.{Fits, Exceeds, Inherits}};
ghost use Rattle.conf_inherit.specs.{Named.{all_named, has}, Names.NoClash, Resolution.{Resolves, aliases_of, resolution}};

/// A configuration has at most one resolution.
pub fn one_resolution()
    ensures { (t r s : Data) → Resolves t r → Resolves t s → r ≡ s }
{}

/// What `resolve` answers for a configuration whose aliases have names of their own is its resolution.
pub fn resolution_exists()
    ensures { (t r : Data) → NoClash (aliases_of t) → resolution t ≡ Ok r → Resolves t r }
{}

/// Where the resolution is a refusal, its kind holds at its path.
pub fn refusal_holds()
    ensures { (t : Data) (flaw : Flaw) → NoClash (aliases_of t) → resolution t ≡ Err flaw → RefusalHolds t flaw }
{}

/// A configuration has a resolution, or a fault that holds: where none holds, there is a resolution.
pub fn resolution_or_fault()
    ensures { (t : Data) → NoClash (aliases_of t)
        → ((r : Data) × Resolves t r) ⊎ ((flaw : Flaw) × RefusalHolds t flaw) }
{}

/// A configuration that is the tree of a text and is resolved has no fault of inheritance.
pub fn resolutions_faultless()
    ensures { (text : List ℕ) (t r : Data) (flaw : Flaw) → IsTreeOf text t → resolution t ≡ Ok r → RefusalHolds t flaw → ⊥ }
{}

/// No configuration is resolved in which an alias leads into a circle: one from which there are as many steps as
/// there are aliases.
pub fn circle_is_refused()
    ensures { (t r : Data) (k : List ℕ) → NoClash (aliases_of t)
        → Walks (aliases_of t) (members_len (aliases_of t)) k → resolution t ≡ Ok r → ⊥ }
{}

/// At a place nothing is refused exactly where the type there has no other flaw, and it, and each value of a `$inherit`
/// in it, is within the limits by itself, as far as all aliases that it names are resolved.
#[tactic(auto, using(crate::proofs::LimitLemmas::sound_type))]
pub fn type_fits()
    ensures { (al done : Members) (s : Place) (v : Data) → type_flaws al done s v ≡ []
        ↔ ((flaws al None s false no_members v ≡ [])
        × (all_named (has done) s v ≡ true → Fits (lay done s v None))
        × ((d : Data) → Inherits d s v → all_named (has done) Place.FieldType d ≡ true → Fits (lay done Place.FieldType d None))) }
{}

/// Where a field type is refused for a limit, the type that the path leads to is past the limit of that kind: it itself,
/// or the value of a `$inherit` in it.
#[tactic(auto, using(crate::proofs::LimitLemmas::refused_limit))]
pub fn limit_is_passed()
    ensures { (al done : Members) (v : Data) (flaw : Flaw) → refusal (type_flaws al done Place.FieldType v) ≡ Err flaw
        → (flaw.kind ≡ FaultKind.Limit) ⊎ (flaw.kind ≡ FaultKind.TooDeep)
        → (d : Data) × Leads Place.FieldType v flaw.path Place.FieldType d × (all_named (has done) Place.FieldType d ≡ true) × Exceeds flaw.kind (lay done Place.FieldType d None) }
{}

//! Laws of the whole: a resolved tree is judged to be a configuration exactly where all rows and all rules say so, and what is
//! refused breaks a row, a rule or a limit.
#![tactic(auto, using(crate::proofs::ConfigurationLaws::configuration_says, crate::proofs::ConfigurationLaws::configuration_judged, crate::proofs::ConfigurationLaws::configuration_excluded, crate::proofs::RuleLaws::rule_refused))]

ghost use Rattle.std.specs.Prelude.{◌≡◌, ◌↔◌, ◌⊎◌, ℕ, List, Option, Ok, Err};
ghost use Rattle.serde_json.specs.Data.{Data};
ghost use Rattle.ctf_types.specs.declared.Config.{Config as Configuration};
ghost use Rattle.conf_tree.specs.Flaw.{Flaw};
ghost use Rattle.conf_tree.specs.Walk.{IsTreeOf};
ghost use Rattle.conf_table.specs.declared.place.Place.TheVariants.{Root};
ghost use Rattle.conf_table.specs.declared.row.Content.TheVariants.{At};
ghost use Rattle.conf_inherit.specs.Resolution.{resolution, Resolves};
ghost use Rattle.conf_draft.specs.declared.draft.Draft.{Draft};
ghost use Rattle.conf_laws.specs.TableLimits.{PassesLimitOf};
ghost use Rattle.conf_check.specs.Configuration.{HasNoFault, IsConfigurationOf, IsNoConfiguration};
ghost use Rattle.conf_check.specs.FirstFlaw.{IsFirstFlawOf};
ghost use Rattle.conf_check.specs.Judgement.{whole, IsJudgedTo};
ghost use Rattle.conf_check.specs.WholeFlaws.{BreaksRule};

/// A resolved tree is judged to be a configuration exactly where all rows and all rules say so.
pub fn configurations_by_rows()
    ensures { (d : Data) (number : Option (List ℕ)) (c : Configuration) → IsJudgedTo d number c ↔ IsConfigurationOf d number c }
{}

/// A configuration whose objects are each as they should be is refused where it breaks a rule over the whole or passes a limit.
pub fn rules_refused()
    ensures { (d : Data) (draft : Draft) (flaw : Flaw) → whole d draft ≡ Err flaw → BreaksRule draft flaw ⊎ PassesLimitOf (At Root) d flaw }
{}

/// A resolved tree that is refused has an object with a row that does not hold, breaks a rule over the whole or passes a limit.
pub fn configurations_refused()
    ensures { (d : Data) (number : Option (List ℕ)) (flaw : Flaw) → IsFirstFlawOf d number flaw → IsNoConfiguration d number flaw }
{}

/// A resolved tree of which all rows and all rules hold has no row that does not hold, breaks no rule and passes no limit.
pub fn configurations_faultless()
    ensures { (d : Data) (number : Option (List ℕ)) (c : Configuration) (flaw : Flaw) → IsConfigurationOf d number c → ¬ IsNoConfiguration d number flaw }
{}

/// A text whose tree is resolved to a configuration has none of the faults.
pub fn texts_faultless()
    ensures { (text : List ℕ) (number : Option (List ℕ)) (c : Configuration) (t r : Data)
        → IsTreeOf text t → resolution t ≡ Ok r → Resolves t r → IsConfigurationOf r number c → HasNoFault text number }
{}

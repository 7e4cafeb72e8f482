//! What texts say as scripts, as laws.

ghost use Rattle.std.specs.Prelude.{◌≡◌, ℕ, List, is_some};
ghost use Rattle.ctf_types.specs.declared.Config.{Config};
ghost use Rattle.trace_text.specs.declared.script.Script.{Script};
ghost use Rattle.trace_text.specs.declared.script_fault.ScriptFault.{ScriptFault};
ghost use Rattle.trace_text.specs.declared.script_object.ScriptObject.TheVariants.{Doing};
ghost use Rattle.trace_text.specs.Script.{IsScriptOf};
ghost use Rattle.trace_text.specs.ScriptEntries.{act_named};
ghost use Rattle.trace_text.specs.ScriptFaults.{IsFirstFault};
ghost use Rattle.trace_text.specs.ScriptObjects.{has_property};

/// A text says one script of a configuration at most, or has one first fault at most, and never both. The table of properties has just the words of acts.
pub fn scripts_or_faults()
    ensures one_script { (c : Config) (text : List ℕ) (s t : Script) → IsScriptOf c text s → IsScriptOf c text t → s ≡ t }
    ensures one_fault { (c : Config) (text : List ℕ) (e f : ScriptFault) → IsFirstFault c text e → IsFirstFault c text f → e ≡ f }
    ensures not_both { (c : Config) (text : List ℕ) (s : Script) (fault : ScriptFault) → IsScriptOf c text s → ¬ IsFirstFault c text fault }
    ensures acts { (word : List ℕ) → has_property Doing word ≡ is_some (act_named word) }
{}

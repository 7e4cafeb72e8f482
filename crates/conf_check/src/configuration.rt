//! From the text of a configuration to the configuration.
ghost use Rattle.std.specs.Prelude.{◌⊎◌, IfOk, IfErr};
ghost use Rattle.ctf_types.specs.declared.Config.{Config as Configuration};
ghost use Rattle.ctf_types.specs.AllowedConfig.{IsConfig};
ghost use Rattle.conf_tree.specs.Flaw.{flaw_of, IsMemory};
ghost use Rattle.conf_check.specs.Configuration.{Configures, ConfiguresResolved, ConfiguresByLookUp, GivesThat, HasNoFault, IsRefusal, RefusalIsTrue, RefusedForMemory, TellsFirstInTree, TellsInheritanceInTurn};

use crate::judgement::check;
use conf_inherit::resolve;
use conf_tree::{ConfFault, read_tree};
use ctf_types::Config;
use std::alloc::Global;
use uuid::Uuid;

/// The configuration that a text is. `number` is the trace's identifier where the configuration asks for one to be handed
/// in. A refusal names the first fault: of the text as JSON, of its inheritance, and of the resolved configuration.
pub fn configure(alloc: Global, text: &[u8], number: Option<Uuid>) -> Result<Config, ConfFault>
    ensures configures { IfOk result (λ c. Configures text.now number c) }
    ensures resolved { IfOk result (λ c. ConfiguresResolved text.now number c) }
    ensures allowed { IfOk result (λ c. IsConfig c) }

    // What is accepted has none of the faults.
    ensures faultless { IfOk result (λ c. HasNoFault text.now number) }

    ensures refused { IfErr result (λ fault. IsMemory fault ⊎ IsRefusal text.now number (flaw_of fault)) }

    // Where the text has faults as a tree, the one that is told stands before each other one: an object or a list before its
    // content, properties in byte order of their names, items by index.
    ensures first_in_tree { IfErr result (λ fault. IsMemory fault ⊎ TellsFirstInTree text.now (flaw_of fault)) }

    // A fault of inheritance is told in its turn: where anything is wrong with the tree as given, that is told, and not that it
    // resolves to what nests too deep; where anything is wrong in an alias, what is told lies in one; and nothing is wrong in the
    // aliases before that, but maybe a limit.
    ensures inherited_in_turn { IfErr result (λ fault. IsMemory fault ⊎ TellsInheritanceInTurn text.now (flaw_of fault)) }

    // The fault's kind holds at its path.
    ensures holds { IfErr result (λ fault. IsMemory fault ⊎ RefusalIsTrue text.now number (flaw_of fault)) }

    // A text that is a configuration is refused for want of memory alone.
    ensures only { IfErr result (λ fault. RefusedForMemory text.now number fault) }

    // The answer is what the text configures by look-up, where no fault of inheritance holds; and with `exact` just that, want
    // of memory aside.
    ensures looked_up { IfOk result (λ c. ConfiguresByLookUp text.now number c) }
    ensures exact { (c : Configuration) → ConfiguresByLookUp text.now number c → GivesThat result c }
{
    let tree = read_tree(alloc, text)?;
    let resolved = resolve(alloc, tree)?;
    check(alloc, resolved, number)
}

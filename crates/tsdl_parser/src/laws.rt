//! Laws of parsing. Each function is a statement, and does nothing when it runs.

ghost use Rattle.std.specs.Prelude.{◌≡◌, List};
ghost use Rattle.tsdl_grammar.specs.declared.tree.Block.{Block};
ghost use Rattle.tsdl_grammar.specs.Spelling.{text_toks};

/// A list of atoms spells at most one list of blocks.
#[tactic(auto, using(crate::proofs::Blocks::one_reading))]
pub fn blocks_are_unique()
    ensures { (bs cs : List Block) → text_toks bs ≡ text_toks cs → bs ≡ cs }
{}

//! Laws of reading. Each function is a statement, and does nothing when it runs.

ghost use Rattle.std.specs.Prelude.{◌≡◌, ℕ, List};
ghost use Rattle.ctf_types.specs.declared.Metadata.{Metadata};
ghost use Rattle.tsdl_grammar.specs.Denotes.{Denotes};

use tsdl_grammar::tokens_are_unique;

/// A text denotes at most one metadata.
pub fn denoted_is_unique()
    ensures { (text : List ℕ) (m n : Metadata) → Denotes text m → Denotes text n → m ≡ n }
{
    tokens_are_unique();
}

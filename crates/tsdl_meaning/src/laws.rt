//! Laws of meaning. Each function is a statement, and does nothing when it runs.

ghost use Rattle.std.specs.Prelude.{ℕ, List};
ghost use Rattle.tsdl_meaning.specs.Words.{Metadata, IsMetadata, Denotes};

/// The metadata that a text denotes is metadata that the rules allow.
pub fn denoted_is_allowed()
    ensures { (text : List ℕ) (m : Metadata) → Denotes text m → IsMetadata m }
{}

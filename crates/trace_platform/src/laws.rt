//! Laws of the platform: what holds of every sink. The function does nothing; its contract is the laws.

ghost use Rattle.trace_platform.specs.AppendingPieces.{NothingIsNoBytes, TwiceIsOnce, PiecesAreJoined};

/// What is appended step by step is appended joined, and the other way round.
pub fn appended_pieces()
    ensures nothing { NothingIsNoBytes }
    ensures twice { TwiceIsOnce }
    ensures pieces { PiecesAreJoined }
{}

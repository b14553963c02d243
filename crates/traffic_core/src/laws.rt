//! The laws. Each function does nothing: what it ensures is the law.
ghost use Rattle.traffic_core.specs.Laws.{WholeWalksAreEdges, WalksArePieces, ForwardPiecesAreApart, ReversePiecesAreApart, OneSpot, OneWeight};

/// The length of a walk is that of its pieces and whole edges together.
pub fn lengths_are_those_of_pieces()
    ensures whole { WholeWalksAreEdges }
    ensures pieces { WalksArePieces }
    ensures forward { ForwardPiecesAreApart }
    ensures reverse { ReversePiecesAreApart }
{}

/// A place lies at one spot, and all right answers to a query tell the same weight, or none.
pub fn answers_agree()
    ensures spot { OneSpot }
    ensures weight { OneWeight }
{}

//! A generation that a feed dropped.
ghost use Rattle.std.specs.Prelude.{◌≡◌};

use crate::piece::Piece;
use std::marker::Model;

/// A generation that a feed dropped: the writer doesn't search it any more. Whoever drops this
/// value gives its memory back, on any thread, unless a reader or its converter still holds the
/// generation. Contracts see its index, and its documents.
#[derive(Drop)]
pub struct Released {
    piece: Piece,
}

impl Model for Released {
    ghost use Rattle.feed_shared.specs.Turns.{PieceToken};

    ghost Value = { PieceToken };

    ghost view = { λ r. r.piece };
}

impl Released {
    pub(crate) fn new(piece: Piece) -> Released
        ensures { result ≡ piece }
    {
        Released { piece }
    }
}

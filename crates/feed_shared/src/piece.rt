//! A generation that is held: its index, which is shared, and a reader of it.
ghost use Rattle.std.specs.Prelude.{◌≡◌, ◌-◌, ◌++◌, ◌⊎◌, length, IfOk, OnOk};
ghost use Rattle.std.specs.Arc.{arc_value};
ghost use mathlib.Core.List.{IsPrefix};
ghost use Rattle.eb_base.specs.Match.{answer};
ghost use Rattle.eb_count.specs.Tallies.{HasCounted};
ghost use Rattle.eb_cursor.specs.Frames.{query_of, k_of, ids_of, SeenAs};
ghost use Rattle.feed_shared.specs.Turns.{piece_of};

use eb_base::{Gate, NoMemory};
use eb_count::Tally;
use eb_cursor::Frame;
use eb_engine::{Index, Reader};
use eb_place::Steps;
use std::alloc::Global;
use std::marker::Model;
use std::sync::Arc;
use std::sync::ledger::Ledger;

// A generation that is held. Contracts see what its reader knows.
#[derive(Drop)]
pub(crate) struct Piece {
    index: Arc<Index, Global>,
    reader: Reader,
}

impl Model for Piece {
    ghost use Rattle.std.specs.Prelude.{◌≡◌};
    ghost use Rattle.std.specs.Arc.{arc_value};
    ghost use Rattle.feed_shared.specs.Turns.{PieceToken, piece_of};

    ghost Value = { PieceToken };

    ghost view = { λ p. piece_of p.reader };

    ghost invariant = { λ p. p.reader.index ≡ arc_value p.index };
}

impl Piece {
    pub(crate) fn new(index: Arc<Index, Global>, reader: Reader) -> Piece
        requires { reader.index ≡ arc_value index }
        ensures { result ≡ piece_of reader }
    {
        Piece { index, reader }
    }

    // A piece that knows what this one knows.
    pub(crate) fn again(&mut self) -> Result<Piece, NoMemory>
        ensures this { self.new ≡ self.old }
        ensures again { IfOk result (λ p. p ≡ self.old) }
    {
        let index = Arc::try_clone(&self.index)?;
        let reader = self.reader.split(&self.index);
        Ok(Piece { index, reader })
    }

    // A reader that knows what this one knows.
    pub(crate) fn reader(&mut self) -> Reader
        ensures this { self.new ≡ self.old }
        ensures reader { piece_of result ≡ self.old }
    {
        self.reader.split(&self.index)
    }

    // How many documents it knows.
    pub(crate) fn seen(&self) -> u64
        ensures { result ≡ length self.now.docs }
    {
        self.reader.seen()
    }

    // Meets a reader of the same index.
    pub(crate) fn meet(&mut self, other: Reader)
        requires { other.index ≡ self.old.index }
        ensures index { self.new.index ≡ self.old.index }
        ensures this { IsPrefix self.old.docs self.new.docs }
        ensures other { IsPrefix other.docs self.new.docs }
        ensures longer { (self.new.docs ≡ self.old.docs) ⊎ (self.new.docs ≡ other.docs) }
    {
        self.reader.meet(&self.index, other);
    }

    // Searches the documents that are accepted when it loads their count, which is reported to the
    // gate.
    pub(crate) fn search<G: Gate, L: Ledger>(
        &mut self,
        frame: &mut Frame,
        gate: &G,
        steps: &mut Steps<L>,
    ) -> u64
        ensures index { self.new.index ≡ self.old.index }
        ensures known { IsPrefix self.old.docs self.new.docs }
        ensures count { result ≡ length self.new.docs }
        ensures query { query_of frame.new ≡ query_of frame.old }
        ensures k { k_of frame.new ≡ k_of frame.old }
        ensures ids { ids_of frame.new ≡ answer (query_of frame.old) (k_of frame.old) self.new.docs }
    {
        self.reader.search(&self.index, frame, gate, steps)
    }

    // Searches exactly the documents that it knows; the ids come after what the frame holds.
    pub(crate) fn search_known<L: Ledger>(&mut self, frame: &mut Frame, steps: &mut Steps<L>)
        ensures same { self.new ≡ self.old }
        ensures query { query_of frame.new ≡ query_of frame.old }
        ensures k { k_of frame.new ≡ k_of frame.old }
        ensures ids { ids_of frame.new ≡ ids_of frame.old ++ answer (query_of frame.old) (k_of frame.old - length (ids_of frame.old)) self.old.docs }
    {
        self.reader.search_known(&self.index, frame, steps);
    }

    // Counts all matches among the documents that are accepted when it loads their count, which is
    // reported to the gate; added to what the tally holds.
    pub(crate) fn count<G: Gate, L: Ledger>(
        &mut self,
        frame: &mut Frame,
        tally: &mut Tally,
        gate: &G,
        steps: &mut Steps<L>,
    ) -> u64
        ensures index { self.new.index ≡ self.old.index }
        ensures known { IsPrefix self.old.docs self.new.docs }
        ensures count { result ≡ length self.new.docs }
        ensures seen { SeenAs frame.old frame.new }
        ensures counts { HasCounted (query_of frame.old) self.new.docs tally.old tally.new }
    {
        self.reader.count(&self.index, frame, tally, gate, steps)
    }

    // Counts all matches among exactly the documents that it knows, added to what the tally holds.
    pub(crate) fn count_known<L: Ledger>(
        &mut self,
        frame: &mut Frame,
        tally: &mut Tally,
        steps: &mut Steps<L>,
    )
        ensures same { self.new ≡ self.old }
        ensures seen { SeenAs frame.old frame.new }
        ensures counts { HasCounted (query_of frame.old) self.old.docs tally.old tally.new }
    {
        self.reader.count_known(&self.index, frame, tally, steps);
    }
}

// Puts pieces that know what these know after the others.
pub(crate) fn copy_all(pieces: &mut [Piece], copies: &mut Vec<Piece>) -> Result<(), NoMemory>
    ensures same { pieces.new ≡ pieces.old }
    ensures copies { OnOk result (copies.new.items ≡ copies.old.items ++ pieces.old) }
{
    for at in 0..pieces.len() {
        let piece = pieces[at].again()?;
        copies.push(piece)?;
    }
    Ok(())
}

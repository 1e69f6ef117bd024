//! The seats of the shared words.
//!
//! A join's moment is the least after both where tests say that they lie on one history, else a
//! moment that no words have. A join alone shows nothing of the words, so a load of word 0 follows,
//! which rules the second case out. That load shows the seat nothing else (`ConfirmStep`), so the
//! seat then knows exactly the least moment after both, and no later one. A store of the writer
//! names its document by a ghost type, since no word does.
ghost use Rattle.std.specs.Prelude.{◌≡◌, ◌<◌};
ghost use Rattle.eb_base.specs.Setting.{words_of};
ghost use Rattle.eb_place.specs.Laws.{IsLeastAfter};
ghost use Rattle.eb_place.specs.NextStores.{IsNext, after_store, IsNextPut, after_put};
ghost use Rattle.eb_table.specs.Known.{MadeWith, SeatLoaded};
ghost use Rattle.eb_table.specs.declared.view.View.TheVariants.{Writer, Reader, Converter};

use crate::view::View;
use crate::words::SharedWords;
use atomic_table::Seat;
use eb_base::Document;
use std::marker::{Brand, Model};

/// A reader's seat at the words of an index. It may load each word, and stores none. It takes no
/// bytes, and may go to another thread. Contracts see the table that it was made with, and the
/// moment that it knows: the words are at this moment or a later one.
#[derive(Drop)]
pub struct ReaderSeat {
    pub(crate) seat: Seat<(), View>,
}

impl Model for ReaderSeat {
    ghost use Rattle.eb_table.specs.declared.view.View.TheVariants.{Reader};
    ghost use Rattle.eb_table.specs.Known.{Known, IsSeat, known};

    ghost Value = { Known };

    ghost view = { λ s. known s.seat.table_id s.seat.me };

    ghost invariant = { λ s. IsSeat Reader s.seat.me };
}

/// The one writer's seat at the words of an index. It alone places documents, so the moment that it
/// knows has all that was stored of them. It takes no bytes, and may go to another thread.
/// Contracts see the table that it was made with, and the moment that it knows.
#[derive(Drop)]
pub struct WriterSeat {
    pub(crate) seat: Seat<(), View>,
}

impl Model for WriterSeat {
    ghost use Rattle.eb_table.specs.declared.view.View.TheVariants.{Writer};
    ghost use Rattle.eb_table.specs.Known.{Known, IsSeat, known};

    ghost Value = { Known };

    ghost view = { λ s. known s.seat.table_id s.seat.me };

    ghost invariant = { λ s. IsSeat Writer s.seat.me };
}

/// The one converter's seat at the words of an index. It alone converts segments, so the moment
/// that it knows has all that was stored of their packed form. It takes no bytes, and may go to
/// another thread. Contracts see the table that it was made with, and the moment that it knows.
#[derive(Drop)]
pub struct ConverterSeat {
    pub(crate) seat: Seat<(), View>,
}

impl Model for ConverterSeat {
    ghost use Rattle.eb_table.specs.declared.view.View.TheVariants.{Converter};
    ghost use Rattle.eb_table.specs.Known.{Known, IsSeat, known};

    ghost Value = { Known };

    ghost view = { λ s. known s.seat.table_id s.seat.me };

    ghost invariant = { λ s. IsSeat Converter s.seat.me };
}

impl ReaderSeat {
    // Loads a word.
    pub(crate) fn load(&mut self, words: &SharedWords, place: u64) -> u64
        requires made { MadeWith self.old words.now }
        requires place { place < words_of words.now.setting }
        ensures { SeatLoaded Reader self.old place result self.new }
    {
        words.load_word(&mut self.seat, place)
    }

    /// A reader's seat that knows what this one knows. This seat must have been made with these
    /// words. Takes no memory.
    pub fn split(&mut self, words: &SharedWords) -> ReaderSeat
        requires { MadeWith self.old words.now }
        ensures this { self.new ≡ self.old }
        ensures new { result ≡ self.old }
    {
        let seat = words.split(&mut self.seat);
        ReaderSeat { seat }
    }

    /// Meets a reader's seat, which is used up: both moments lie on one history, and this seat then
    /// knows the least one that isn't before either. Both seats must have been made with these
    /// words. One load of word 0. Takes no memory.
    pub fn meet(&mut self, words: &SharedWords, seat: ReaderSeat)
        requires this { MadeWith self.old words.now }
        requires other { MadeWith seat words.now }
        ensures made { MadeWith self.new words.now }
        ensures least { IsLeastAfter self.old.moment seat.moment self.new.moment }
    {
        let ReaderSeat { seat } = seat;
        words.join(&mut self.seat, seat);
        words.confirm(&mut self.seat);
    }
}

impl WriterSeat {
    // Loads a word.
    pub(crate) fn load(&mut self, words: &SharedWords, place: u64) -> u64
        requires made { MadeWith self.old words.now }
        requires place { place < words_of words.now.setting }
        ensures { SeatLoaded Writer self.old place result self.new }
    {
        words.load_word(&mut self.seat, place)
    }

    // Does the next store of the placing of a document.
    pub(crate) fn store(&mut self, words: &SharedWords, document: &Document, place: u64, value: u64)
        requires made { MadeWith self.old words.now }
        requires next { IsNext self.old.moment document.now place value }
        ensures { self.new ≡ record { table = self.old.table; moment = after_store self.old.moment document.now } }
    {
        words.store_word::<Brand>(&mut self.seat, document, place, value)
    }

    /// A reader's seat that knows what this one knows. This seat must have been made with these
    /// words. Takes no memory.
    pub fn split(&mut self, words: &SharedWords) -> ReaderSeat
        requires { MadeWith self.old words.now }
        ensures this { self.new ≡ self.old }
        ensures new { result ≡ self.old }
    {
        let seat = words.split(&mut self.seat);
        ReaderSeat { seat }
    }

    /// Meets a reader's seat, which is used up: both moments lie on one history, and this seat then
    /// knows the least one that isn't before either. What it knows of the documents stays, so it
    /// includes all that the reader knew of them. Both seats must have been made with these words.
    /// One load of word 0. Takes no memory.
    pub fn meet(&mut self, words: &SharedWords, seat: ReaderSeat)
        requires this { MadeWith self.old words.now }
        requires other { MadeWith seat words.now }
        ensures made { MadeWith self.new words.now }
        ensures least { IsLeastAfter self.old.moment seat.moment self.new.moment }
        ensures documents { self.new.moment.documents ≡ self.old.moment.documents }
    {
        let ReaderSeat { seat } = seat;
        words.join(&mut self.seat, seat);
        words.confirm(&mut self.seat);
    }
}

impl ConverterSeat {
    // Loads a word.
    pub(crate) fn load(&mut self, words: &SharedWords, place: u64) -> u64
        requires made { MadeWith self.old words.now }
        requires place { place < words_of words.now.setting }
        ensures { SeatLoaded Converter self.old place result self.new }
    {
        words.load_word(&mut self.seat, place)
    }

    // Does the next store of the next conversion.
    pub(crate) fn put(&mut self, words: &SharedWords, place: u64, value: u64)
        requires made { MadeWith self.old words.now }
        requires next { IsNextPut self.old.moment place value }
        ensures { self.new ≡ record { table = self.old.table; moment = after_put self.old.moment } }
    {
        words.put_word(&mut self.seat, place, value)
    }

    /// A reader's seat that knows what this one knows. This seat must have been made with these
    /// words. Takes no memory.
    pub fn split(&mut self, words: &SharedWords) -> ReaderSeat
        requires { MadeWith self.old words.now }
        ensures this { self.new ≡ self.old }
        ensures new { result ≡ self.old }
    {
        let seat = words.split(&mut self.seat);
        ReaderSeat { seat }
    }

    /// Meets a reader's seat, which is used up: both moments lie on one history, and this seat then
    /// knows the least one that isn't before either. What it knows of the conversions stays. Both
    /// seats must have been made with these words. One load of word 0. Takes no memory.
    pub fn meet(&mut self, words: &SharedWords, seat: ReaderSeat)
        requires this { MadeWith self.old words.now }
        requires other { MadeWith seat words.now }
        ensures made { MadeWith self.new words.now }
        ensures least { IsLeastAfter self.old.moment seat.moment self.new.moment }
        ensures conversions { self.new.moment.conversions ≡ self.old.moment.conversions }
    {
        let ReaderSeat { seat } = seat;
        words.join(&mut self.seat, seat);
        words.confirm(&mut self.seat);
    }
}

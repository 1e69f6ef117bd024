ghost use Rattle.std.specs.Prelude.{◌≡◌, ◌+◌, ◌<◌, length};
ghost use mathlib.Core.List.{IsPrefix};
ghost use Rattle.eb_convert.specs.declared.conversion.Converted.TheVariants.{One};
ghost use Rattle.eb_place.specs.Moments.{IsMoment};
ghost use Rattle.eb_place.specs.Room.{cut, IsLawful};
ghost use Rattle.eb_engine.specs.Tokens.{index_of, placed_by, known_to, Converts};

use crate::calls::convert_in_words;
use crate::index::Index;
use crate::reader::Reader;
use eb_convert::Converted;
use eb_table::ConverterSeat;
use std::marker::Model;

/// The one converter of an index: it knows which segments are closed, and how many it converted. It
/// may go to a thread of its own. Contracts see the documents that it knows, which are the first
/// ones of the writer's history; the document that it knows to be placed after them, if there is
/// one; and the number of segments that it converted.
#[derive(Drop)]
pub struct Converter {
    pub(crate) seat: ConverterSeat,
    converted: u32,
}

impl Model for Converter {
    ghost use Rattle.std.specs.Prelude.{◌≡◌};
    ghost use Rattle.eb_place.specs.Moments.{IsMoment};
    ghost use Rattle.eb_engine.specs.Tokens.{ConverterToken, index_of, placed_by};

    ghost Value = { ConverterToken };

    ghost view = { λ c. record {
      index = index_of c.seat;
      docs = c.seat.moment.documents.accepted;
      placing = placed_by c.seat.moment.documents.current;
      converted = c.converted;
    } };

    ghost invariant = { λ c. IsMoment c.seat.moment × (c.seat.moment.conversions ≡ record { converted = c.converted; packed = 0 }) };
}

impl Converter {
    pub(crate) fn new(seat: ConverterSeat) -> Converter
        requires moment { IsMoment seat.moment }
        requires none { seat.moment.conversions ≡ record { converted = 0; packed = 0 } }
        ensures { result ≡ record {
          index = index_of seat;
          docs = seat.moment.documents.accepted;
          placing = placed_by seat.moment.documents.current;
          converted = 0;
        } }
    {
        Converter { seat, converted: 0 }
    }

    /// Converts the next segment, the first one that isn't converted, if it is closed: `One` with
    /// its number, which counts from 0. A segment is closed where a document of the following one
    /// is added, or is being added. `Nothing` exactly where the converter then knows of no such
    /// document, and then nothing is stored; so it never comes where the converter knew a document
    /// of the following segment before. The call loads whether there is one, and the converter
    /// knows what it found from then on. All that it knows is a history that the setting allows.
    /// The converter must have been made with this index. Takes no memory.
    pub fn convert(&mut self, index: &Index) -> Converted
        requires { self.old.index ≡ index.now }
        ensures index { self.new.index ≡ self.old.index }
        ensures known { IsPrefix self.old.docs self.new.docs }
        ensures all { IsPrefix (known_to self.old) (known_to self.new) }
        ensures converts { Converts index.now.setting self.old self.new result }
        ensures lawful { IsLawful index.now.setting (known_to self.new) }
        ensures told { self.old.converted + 1 < length (cut index.now.setting (known_to self.old)) → result ≡ One self.old.converted }
    {
        let done = convert_in_words(&mut self.seat, &index.words, self.converted);
        if let Converted::One(_) = done {
            self.converted += 1;
        }
        done
    }

    /// Meets a reader, which is used up: the converter then knows at least what the reader knew and
    /// what it knew before, also the document that is being placed. Both are prefixes of one
    /// history. All must have been made with this index. Takes no memory.
    pub fn meet(&mut self, index: &Index, reader: Reader)
        requires this { self.old.index ≡ index.now }
        requires reader { reader.index ≡ index.now }
        ensures index { self.new.index ≡ self.old.index }
        ensures converted { self.new.converted ≡ self.old.converted }
        ensures this { IsPrefix self.old.docs self.new.docs }
        ensures all { IsPrefix (known_to self.old) (known_to self.new) }
        ensures reader { IsPrefix reader.docs self.new.docs }
    {
        let seat = reader.into_seat();
        self.seat.meet(&index.words, seat);
    }

    /// The number of segments that it converted: they are the first ones of the index.
    pub fn converted(&self) -> u32
        ensures { result ≡ self.now.converted }
    {
        self.converted
    }
}

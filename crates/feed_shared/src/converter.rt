//! The converter of a generation, which goes along with its index.
ghost use Rattle.std.specs.Prelude.{◌≡◌, ◌+◌, ◌<◌, length};
ghost use Rattle.std.specs.Arc.{arc_value};
ghost use mathlib.Core.List.{IsPrefix};
ghost use Rattle.eb_convert.specs.declared.conversion.Converted.TheVariants.{One};
ghost use Rattle.eb_place.specs.Room.{cut, IsLawful};
ghost use Rattle.eb_engine.specs.Tokens.{known_to, Converts};

use eb_convert::Converted;
use eb_engine::{Converter, Index};
use std::alloc::Global;
use std::marker::Model;
use std::sync::Arc;

/// The one converter of a generation. It may go to a thread of its own, and goes on after the
/// generation was closed, even where nobody else holds the generation any more. Contracts see what
/// the converter of an index has.
#[derive(Drop)]
pub struct FeedConverter {
    index: Arc<Index, Global>,
    converter: Converter,
}

impl Model for FeedConverter {
    ghost use Rattle.std.specs.Prelude.{◌≡◌};
    ghost use Rattle.std.specs.Arc.{arc_value};
    ghost use Rattle.eb_engine.specs.Tokens.{ConverterToken};

    ghost Value = { ConverterToken };

    ghost view = { λ c. c.converter };

    ghost invariant = { λ c. c.converter.index ≡ arc_value c.index };
}

impl FeedConverter {
    pub(crate) fn new(index: Arc<Index, Global>, converter: Converter) -> FeedConverter
        requires { converter.index ≡ arc_value index }
        ensures { result ≡ converter }
    {
        FeedConverter { index, converter }
    }

    /// Converts the next segment of the generation, the first one that isn't converted, if it is
    /// closed: `One` with its number, which counts from 0; else `Nothing`, and nothing is stored. A
    /// segment is closed where a document of the following one is added, or is being added; so the
    /// last one of a generation never is. No answer changes by it. Doesn't wait, and takes no
    /// memory.
    pub fn convert(&mut self) -> Converted
        ensures index { self.new.index ≡ self.old.index }
        ensures known { IsPrefix self.old.docs self.new.docs }
        ensures converts { Converts self.old.index.setting self.old self.new result }
        ensures lawful { IsLawful self.old.index.setting (known_to self.new) }
        ensures told { self.old.converted + 1 < length (cut self.old.index.setting (known_to self.old)) → result ≡ One self.old.converted }
    {
        self.converter.convert(&self.index)
    }

    /// The number of segments that it converted: they are the first ones of the generation.
    pub fn converted(&self) -> u32
        ensures { result ≡ self.now.converted }
    {
        self.converter.converted()
    }
}

ghost use Rattle.std.specs.Prelude.{◌≡◌, ◌+◌, ◌-◌, ◌<◌, ◌≤◌, ℕ, length, get_or, All};
ghost use Rattle.eb_base.specs.Setting.{Setting};
ghost use Rattle.eb_place.specs.Room.{cut};
ghost use mathlib.Core.List.{IsPrefix};
ghost use Rattle.eb_blend.specs.Parts.{indexes_of, histories_of, converter_indexes_of, converter_histories_of};
ghost use Rattle.eb_blend.specs.Parts.{converted_of, few_counted, AreFronts, AllConverted};

use crate::blend::Blend;
use crate::reader::BlendReader;
use eb_convert::Converted;
use eb_engine::{Converter, Index, Reader};
use std::marker::Model;

/// The one converter of a blend. It may go to a thread of its own. Contracts see the documents that
/// it knows of each part, which are the first ones of the part's history, and how many segments of
/// each part it converted.
#[derive(Drop)]
pub struct BlendConverter {
    pub(crate) converters: Vec<Converter>,
}

impl Model for BlendConverter {
    ghost use Rattle.eb_blend.specs.Parts.{ConverterTokens, converter_indexes_of, converter_histories_of, converted_of};

    ghost Value = { ConverterTokens };

    ghost view = { λ c. record {
      indexes = converter_indexes_of c.converters.items;
      histories = converter_histories_of c.converters.items;
      converted = converted_of c.converters.items;
    } };
}

impl BlendConverter {
    pub(crate) fn new(converters: Vec<Converter>) -> BlendConverter
        ensures { result ≡ record {
          indexes = converter_indexes_of converters.items;
          histories = converter_histories_of converters.items;
          converted = converted_of converters.items;
        } }
    {
        BlendConverter { converters }
    }

    /// Meets a reader, which is used up: of each part the converter then knows at least what the
    /// reader knew and what it knew before, which are prefixes of one history. Both must have been
    /// made with this blend. Takes no memory.
    pub fn meet(&mut self, blend: &Blend, reader: BlendReader)
        requires this { self.old.indexes ≡ blend.now.indexes }
        requires reader { reader.indexes ≡ blend.now.indexes }
        ensures indexes { self.new.indexes ≡ self.old.indexes }
        ensures converted { self.new.converted ≡ self.old.converted }
        ensures this { AreFronts self.old.histories self.new.histories }
        ensures reader { AreFronts reader.histories self.new.histories }
    {
        meet_each(
            self.converters.as_mut_slice(),
            blend.parts.as_slice(),
            reader.into_readers(),
        );
    }

    /// Converts in each part until there is nothing to convert, and returns by how much `converted`
    /// grew. Afterwards, in each part, each segment whose following segment has a document that the
    /// converter knew is converted, and no converted segment is unconverted. The converter must
    /// have been made with this blend. Takes no memory.
    pub fn convert_all(&mut self, blend: &Blend) -> u32
        requires { self.old.indexes ≡ blend.now.indexes }
        ensures indexes { self.new.indexes ≡ self.old.indexes }
        ensures known { AreFronts self.old.histories self.new.histories }
        ensures parts { length self.new.converted ≡ length blend.now.indexes }
        ensures rising { (p : ℕ) → get_or self.old.converted p 0 ≤ get_or self.new.converted p 0 }
        ensures converted { AllConverted blend.now.setting self.old.histories self.new.converted }
        ensures grown { result ≡ few_counted self.new.converted - few_counted self.old.converted }
    {
        let before = self.converted();
        convert_each(self.converters.as_mut_slice(), blend.parts.as_slice());
        self.converted().saturating_sub(before)
    }

    /// The number of segments that it converted, of all parts.
    pub fn converted(&self) -> u32
        ensures { result ≡ few_counted self.now.converted }
    {
        let mut converted = 0u32;
        for converter in &self.converters {
            converted = converted.saturating_add(converter.converted());
        }
        converted
    }
}

// Each converter meets the reader of its part.
fn meet_each(converters: &mut [Converter], indexes: &[Index], mut readers: Vec<Reader>)
    requires made { converter_indexes_of converters.old ≡ indexes.now }
    requires readers { indexes_of readers.items ≡ indexes.now }
    ensures indexes { converter_indexes_of converters.new ≡ indexes.now }
    ensures converted { converted_of converters.new ≡ converted_of converters.old }
    ensures this { AreFronts (converter_histories_of converters.old) (converter_histories_of converters.new) }
    ensures readers { AreFronts (histories_of readers.items) (converter_histories_of converters.new) }
{
    while let Some(reader) = readers.pop() {
        let at = readers.len();
        converters[at].meet(&indexes[at], reader);
    }
}

// Each part converts until there is nothing to convert.
fn convert_each(converters: &mut [Converter], indexes: &[Index])
    requires made { converter_indexes_of converters.old ≡ indexes.now }
    ensures indexes { converter_indexes_of converters.new ≡ indexes.now }
    ensures known { AreFronts (converter_histories_of converters.old) (converter_histories_of converters.new) }
    ensures rising { (p : ℕ) → get_or (converted_of converters.old) p 0 ≤ get_or (converted_of converters.new) p 0 }
    ensures converted { (σ : Setting) → All (λ w. w.setting ≡ σ) indexes.now
        → AllConverted σ (converter_histories_of converters.old) (converted_of converters.new) }
{
    for at in 0..converters.len() {
        convert_part(&mut converters[at], &indexes[at]);
    }
}

// Converts in a part until there is nothing to convert.
pub(crate) fn convert_part(converter: &mut Converter, index: &Index)
    requires { converter.old.index ≡ index.now }
    ensures index { converter.new.index ≡ converter.old.index }
    ensures known { IsPrefix converter.old.docs converter.new.docs }
    ensures grown { converter.old.converted ≤ converter.new.converted }
    ensures converted { (s : ℕ) → s + 1 < length (cut index.now.setting converter.old.docs) → s < converter.new.converted }
{
    'converts: while let Converted::One(_segment) = converter.convert(index) {}
}

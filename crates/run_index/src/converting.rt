ghost use Rattle.std.specs.Prelude.{◌≡◌, ◌+◌, ◌<◌, ◌≤◌, ◌↔◌, IsTrue, length, max};
ghost use mathlib.Core.List.{IsPrefix};
ghost use Rattle.eb_place.specs.Room.{cut};
ghost use Rattle.run_index.specs.Conversions.{AreConverted, most_converted};

use eb_convert::Converted;
use eb_engine::{Converter, Index, Writer};

/// How many segments are begun, and how many of them are converted.
#[derive(Clone, Copy, Debug, PartialEq, Eq)]
pub struct SegmentCounts {
    /// The segments that have a document.
    pub segments: u32,
    /// The converted segments.
    pub converted: u32,
}

/// Converts until there is nothing to convert. Takes no memory.
pub fn convert_all(index: &Index, converter: &mut Converter)
    requires { converter.old.index ≡ index.now }
    ensures index { converter.new.index ≡ converter.old.index }
    ensures known { IsPrefix converter.old.docs converter.new.docs }
    ensures grown { converter.old.converted ≤ converter.new.converted }
    ensures converted { AreConverted index.now.setting converter.old.docs converter.new.converted }
{
    'converts: while let Converted::One(_segment) = converter.convert(index) {}
}

/// Whether a segment whose following segment is begun isn't converted yet. Takes no memory.
pub fn has_waiting(writer: &Writer, converter: &Converter) -> bool
    ensures { IsTrue result ↔ (converter.now.converted + 1 < length (cut writer.now.index.setting writer.now.docs)) }
{
    writer.segments().saturating_sub(converter.converted()) > 1
}

/// The converter learns the history, and converts where a segment waits for it. Takes no memory.
pub fn catch_up(index: &Index, writer: &mut Writer, converter: &mut Converter)
    requires writer { writer.old.index ≡ index.now }
    requires converter { converter.old.index ≡ index.now }
    ensures writer { writer.new ≡ writer.old }
    ensures index { converter.new.index ≡ converter.old.index }
    ensures told { IsPrefix writer.new.docs converter.new.docs }
    ensures grown { converter.old.converted ≤ converter.new.converted }
    ensures converted { AreConverted index.now.setting writer.new.docs converter.new.converted }
{
    converter.meet(index, writer.reader(index));
    if has_waiting(writer, converter) {
        convert_all(index, converter);
    }
}

/// Closes an input: the converter learns the whole history and converts until there is nothing to
/// convert. So of the segments begun all but the last one are converted, and the writer knows
/// these. The result is how many are begun, and how many converted. The tokens must have been made
/// with this index. Takes no memory.
pub fn close(index: &Index, writer: &mut Writer, converter: &mut Converter) -> SegmentCounts
    requires writer { writer.old.index ≡ index.now }
    requires converter { converter.old.index ≡ index.now }
    ensures writer { writer.new ≡ record { index = writer.old.index; docs = writer.old.docs; converted = max writer.old.converted result.converted } }
    ensures index { converter.new.index ≡ converter.old.index }
    ensures told { IsPrefix writer.new.docs converter.new.docs }
    ensures segments { result.segments ≡ length (cut index.now.setting writer.new.docs) }
    ensures converted { result.converted ≡ most_converted (length (cut index.now.setting writer.new.docs)) }
    ensures counted { converter.new.converted ≡ result.converted }
{
    catch_up(index, writer, converter);
    writer.hear(index, converter);
    SegmentCounts {
        segments: writer.segments(),
        converted: converter.converted(),
    }
}

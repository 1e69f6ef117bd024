//! The converter of a part, or those of all parts, catch up with the writers.
ghost use Rattle.std.specs.Prelude.{◌≡◌, ◌+◌, ◌≤◌, ◌<◌, ◌↔◌, ℕ, length, get_or, IsTrue, All};
ghost use mathlib.Core.List.{IsPrefix};
ghost use Rattle.eb_base.specs.Setting.{Setting};
ghost use Rattle.eb_place.specs.Room.{cut};
ghost use Rattle.eb_blend.specs.Parts.{indexes_of, histories_of, converter_indexes_of, converter_histories_of, converted_of, tokens_of};
ghost use Rattle.eb_blend.specs.Parts.{AreFronts, IsCaughtUp, AllConverted};
ghost use Rattle.eb_engine.specs.Tokens.{ConverterToken};
ghost use Rattle.eb_table.specs.Known.{Words};
ghost use Rattle.eb_blend.specs.Converting.{HasConverted};

use crate::converter::convert_part;
use eb_beside::each_place;
use eb_engine::{Converter, Index, Writer};
use std::thread::Threads;

// The converter of one part catches up.
pub(crate) fn catch_up_at(
    at: usize,
    indexes: &[Index],
    writers: &mut [Writer],
    converters: &mut [Converter],
)
    requires part { at < length indexes.now }
    requires made { indexes_of writers.old ≡ indexes.now }
    requires converters { converter_indexes_of converters.old ≡ indexes.now }
    ensures indexes { indexes_of writers.new ≡ indexes_of writers.old }
    ensures histories { histories_of writers.new ≡ histories_of writers.old }
    ensures converters { converter_indexes_of converters.new ≡ converter_indexes_of converters.old }
    ensures known { AreFronts (converter_histories_of converters.old) (converter_histories_of converters.new) }
    ensures rising { (p : ℕ) → get_or (converted_of converters.old) p 0 ≤ get_or (converted_of converters.new) p 0 }
    ensures part { (σ : Setting) → All (λ w. w.setting ≡ σ) indexes.now
        → IsCaughtUp σ (histories_of writers.old) at (tokens_of converters.old) (tokens_of converters.new) }
{
    catch_up_part(&indexes[at], &mut writers[at], &mut converters[at]);
}

// The converter learns the history. Where a segment waits, it converts until there is nothing to
// convert; the writer then learns that.
fn catch_up_part(index: &Index, writer: &mut Writer, converter: &mut Converter)
    requires writer { writer.old.index ≡ index.now }
    requires converter { converter.old.index ≡ index.now }
    ensures index { writer.new.index ≡ writer.old.index }
    ensures docs { writer.new.docs ≡ writer.old.docs }
    ensures converter { converter.new.index ≡ converter.old.index }
    ensures known { IsPrefix converter.old.docs converter.new.docs }
    ensures told { IsPrefix writer.old.docs converter.new.docs }
    ensures grown { converter.old.converted ≤ converter.new.converted }
    ensures converted { (s : ℕ) → s + 1 < length (cut index.now.setting writer.old.docs) → s < converter.new.converted }
{
    converter.meet(index, writer.reader(index));
    if has_waiting(writer, converter) {
        convert_part(converter, index);
        writer.hear(index, converter);
    }
}

// Whether a segment whose following segment is begun isn't converted yet.
fn has_waiting(writer: &Writer, converter: &Converter) -> bool
    ensures { IsTrue result ↔ (converter.now.converted + 1 < length (cut writer.now.index.setting writer.now.docs)) }
{
    writer.segments().saturating_sub(converter.converted()) > 1
}

// The converter of each part learns the part's history; returns whether a segment waits in some
// part.
fn tell_each(indexes: &[Index], writers: &mut [Writer], converters: &mut [Converter]) -> bool
    requires made { indexes_of writers.old ≡ indexes.now }
    requires converters { converter_indexes_of converters.old ≡ indexes.now }
    ensures writers { writers.new ≡ writers.old }
    ensures indexes { converter_indexes_of converters.new ≡ converter_indexes_of converters.old }
    ensures converted { converted_of converters.new ≡ converted_of converters.old }
    ensures known { AreFronts (converter_histories_of converters.old) (converter_histories_of converters.new) }
    ensures told { AreFronts (histories_of writers.old) (converter_histories_of converters.new) }
{
    let mut waits = false;
    for at in 0..indexes.len() {
        let reader = writers[at].reader(&indexes[at]);
        converters[at].meet(&indexes[at], reader);
        waits |= has_waiting(&writers[at], &converters[at]);
    }
    waits
}

// Each part converts until there is nothing to convert: all at once, on threads of their own, where
// a segment waits.
fn convert_beside<R: Threads + Sync>(
    rt: &R,
    indexes: &[Index],
    converters: &mut [Converter],
    waits: bool,
)
    requires made { converter_indexes_of converters.old ≡ indexes.now }
    ensures each { (p : ℕ) (w : Words) (c : ConverterToken) → p < length converters.old → w ≡ get_or indexes.now p w
        → HasConverted w.setting (get_or converters.old p c) (get_or converters.new p c) }
{
    each_place(
        rt,
        converters,
        waits,
        &|part: usize, converter: &mut Converter|
            requires place { part < length indexes.now }
            requires made { (w : Words) → w ≡ get_or indexes.now part w → converter.now.index ≡ w }
            ensures { (w : Words) → w ≡ get_or indexes.entry.now part w → HasConverted w.setting converter.entry.now converter.exit.now }
        { convert_told(&indexes[part], converter) },
    );
}

// A part converts until there is nothing to convert.
fn convert_told(index: &Index, converter: &mut Converter)
    requires { converter.old.index ≡ index.now }
    ensures { HasConverted index.now.setting converter.old converter.new }
{
    convert_part(converter, index);
}

// All converters catch up, concurrently where a segment waits in some part.
pub(crate) fn catch_up_each<R: Threads + Sync>(
    rt: &R,
    indexes: &[Index],
    writers: &mut [Writer],
    converters: &mut [Converter],
)
    requires some { 0 < length indexes.now }
    requires made { indexes_of writers.old ≡ indexes.now }
    requires converters { converter_indexes_of converters.old ≡ indexes.now }
    ensures writers { writers.new ≡ writers.old }
    ensures indexes { converter_indexes_of converters.new ≡ converter_indexes_of converters.old }
    ensures known { AreFronts (converter_histories_of converters.old) (converter_histories_of converters.new) }
    ensures told { AreFronts (histories_of writers.old) (converter_histories_of converters.new) }
    ensures rising { (p : ℕ) → get_or (converted_of converters.old) p 0 ≤ get_or (converted_of converters.new) p 0 }
    ensures converted { (σ : Setting) → All (λ w. w.setting ≡ σ) indexes.now → AllConverted σ (histories_of writers.old) (converted_of converters.new) }
{
    let waits = tell_each(indexes, writers, converters);
    convert_beside(rt, indexes, converters, waits);
}

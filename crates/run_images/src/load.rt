ghost use Rattle.std.specs.Prelude.{◌≡◌, ℕ, List};
ghost use Rattle.eb_fields.specs.Dialect.{dialect_of};
ghost use Rattle.eb_image.specs.Reading.{IsBad};
ghost use Rattle.eb_io.specs.Faults.{HasRisen};
ghost use Rattle.eb_io.specs.Source.{after};
ghost use Rattle.run_images.specs.Loaded.{EndsLoad, IsImage};

use crate::image::read_image;
use eb_base::Gate;
use eb_fields::Dialect;
use eb_image::ImageFault;
use eb_io::{Sink, Source};
use eb_lines::{Form, Status};
use run_store::answer_lines;
use std::alloc::Global;

/// Loads an image and processes the lines after it, which come from the same source: reads the image, exactly its bytes,
/// into an index of its setting, and then document lines and query lines in order; prints answers, refusals and the
/// summary on `out`. Lines are numbered from 1. A query sees the documents of the image and those of the lines before it.
/// Lines are read by this dialect; the form says how what is printed is written, and whether the segments are printed after the summary.
///
/// `BadImage` says that what was read begins no image of documents that an index of its setting has room for, or that
/// the source ended in it; then nothing was printed, as wherever the image wasn't read to its end. At a `ReadFault` before
/// that end, what was read begins an image, or the next part after documents that the index has room for. A source that
/// gives few bytes a call is slow here. Takes the memory of the index at once.
pub fn load_lines<S: Source, K: Sink, G: Gate>(
    alloc: Global,
    dialect: Dialect<'_>,
    form: Form,
    source: &mut S,
    out: &mut K,
    gate: &G,
) -> Status
    // No image was read and nothing was printed; or an image was read, and the lines after it as the status says.
    ensures ends { EndsLoad (dialect_of dialect.entry) form result (S.left source.old) (S.left source.new) (K.taken out.old) (K.taken out.new) }
    // What was read begins no image, and nothing was printed.
    ensures bad_image { result ≡ Status.BadImage → (K.taken out.new ≡ K.taken out.old)
        × ((taken : List ℕ) × (S.left source.old ≡ after taken (S.left source.new)) × IsBad IsImage taken (S.left source.new)) }
    // Faults come only from outside.
    ensures read_fault { result ≡ Status.ReadFault → HasRisen (S.faults source.old) (S.faults source.new) }
    ensures write_fault { result ≡ Status.WriteFault → HasRisen (K.faults out.old) (K.faults out.new) }
{
    pass_loaded(alloc, dialect, form, source, out, gate)
}

fn pass_loaded<S: Source, K: Sink, G: Gate>(
    alloc: Global,
    dialect: Dialect<'_>,
    form: Form,
    source: &mut S,
    out: &mut K,
    gate: &G,
) -> Status
    ensures ends { EndsLoad (dialect_of dialect.entry) form result (S.left source.old) (S.left source.new) (K.taken out.old) (K.taken out.new) }
    ensures read_fault { result ≡ Status.ReadFault → HasRisen (S.faults source.old) (S.faults source.new) }
    ensures write_fault { result ≡ Status.WriteFault → HasRisen (K.faults out.old) (K.faults out.new) }
{
    let indexed = match read_image(alloc, source, gate) {
        Ok(indexed) => indexed,
        Err(ImageFault::BadImage) => return Status::BadImage,
        Err(ImageFault::ReadFault) => return Status::ReadFault,
        Err(ImageFault::NoMemory) => return Status::NoMemory,
    };
    answer_lines(alloc, indexed.telling(form), dialect, source, out, gate)
}

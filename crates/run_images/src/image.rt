//! An image is read into the index of its setting.
ghost use Rattle.std.specs.Prelude.{◌≤◌, ℕ, List, [], Option, MatchResult, IsErrOf};
ghost use Rattle.eb_base.specs.Document.{Doc};
ghost use Rattle.eb_base.specs.Setting.{Setting, IsSetting};
ghost use Rattle.eb_io.specs.Faults.{HasRisen};
ghost use Rattle.run_images.specs.Reading.{HasRead, ComesNext, IsFilled, IsReadingStopped};
ghost use Rattle.run_index.specs.Indexed.{Holds};

use eb_base::Gate;
use eb_image::{HeadFault, ImageFault, ImageReader, read_head};
use eb_io::Source;
use eb_lines::Form;
use run_index::Indexed;
use std::alloc::Global;

// Reads the next part, and adds its document to the index; `None` at the end of the image.
fn take_part<S: Source, G: Gate>(
    alloc: Global,
    store: &mut Indexed,
    reader: ImageReader,
    source: &mut S,
    gate: &G,
) -> Result<Option<ImageReader>, ImageFault>
    requires { (σ : Setting) × (docs : List Doc) × Holds store.old σ docs }
    ensures next { (σ : Setting) (docs : List Doc) (first : Option (List ℕ)) → IsSetting σ → HasRead store.old σ docs first (S.left source.old)
        → ComesNext result store.new σ docs first (S.left source.new) }
    ensures fault { IsErrOf result ImageFault.ReadFault → HasRisen (S.faults source.old) (S.faults source.new) }
    ensures later { S.faults source.old ≤ S.faults source.new }
{
    match reader.next(alloc, source)? {
        None => Ok(None),
        Some((document, behind)) => {
            if !store.add(&document, gate) {
                return Err(ImageFault::BadImage);
            }
            Ok(Some(behind))
        }
    }
}

// Reads all parts after a head into the index, which is empty.
fn read_parts<S: Source, G: Gate>(
    alloc: Global,
    store: &mut Indexed,
    reader: ImageReader,
    source: &mut S,
    gate: &G,
) -> Result<(), ImageFault>
    requires { (σ : Setting) × (first : Option (List ℕ)) × IsSetting σ × HasRead store.old σ [] first (S.left source.old) }
    ensures all { (σ : Setting) (first : Option (List ℕ)) → IsSetting σ → HasRead store.old σ [] first (S.left source.old)
        → MatchResult result (λ _. IsFilled store.new first (S.left source.new)) (λ fault. IsReadingStopped fault first (S.left source.new)) }
    ensures fault { IsErrOf result ImageFault.ReadFault → HasRisen (S.faults source.old) (S.faults source.new) }
    ensures later { S.faults source.old ≤ S.faults source.new }
{
    let mut reader = reader;
    'parts: for _ in 0..u64::MAX {
        match take_part(alloc, store, reader, source, gate)? {
            None => return Ok(()),
            Some(behind) => reader = behind,
        }
    }
    // no index has room for this many documents
    Err(ImageFault::NoMemory)
}

// Reads an image, exactly its bytes, and returns the index of its documents.
pub(crate) fn read_image<S: Source, G: Gate>(
    alloc: Global,
    source: &mut S,
    gate: &G,
) -> Result<Indexed, ImageFault>
    ensures all { MatchResult result (λ store. IsFilled store (S.left source.old) (S.left source.new))
        (λ fault. IsReadingStopped fault (S.left source.old) (S.left source.new)) }
    ensures fault { IsErrOf result ImageFault.ReadFault → HasRisen (S.faults source.old) (S.faults source.new) }
    ensures later { S.faults source.old ≤ S.faults source.new }
{
    let (config, reader) = match read_head(source) {
        Ok(read) => read,
        Err(HeadFault::BadImage) => return Err(ImageFault::BadImage),
        Err(HeadFault::ReadFault) => return Err(ImageFault::ReadFault),
    };
    let Ok(mut store) = Indexed::new(
        alloc,
        Form {
            json: false,
            stats: false,
        },
        config,
    ) else {
        return Err(ImageFault::NoMemory);
    };
    read_parts(alloc, &mut store, reader, source, gate)?;
    Ok(store)
}

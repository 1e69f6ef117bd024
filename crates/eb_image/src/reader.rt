ghost use Rattle.std.specs.Prelude.{◌≡◌, ℕ, ◌<◌, ◌≤◌, List, length, take, None, Some, Ok, IfOk, IfSome, IsErrOf};
ghost use Rattle.eb_base.specs.Document.{IsDocument};
ghost use Rattle.eb_io.specs.Faults.{HasRisen};
ghost use Rattle.eb_io.specs.Source.{after};
ghost use Rattle.eb_image.specs.Image.{document_part, last_byte};
ghost use Rattle.eb_image.specs.Reading.{IsNextPart, IsPart, IsBad, HasBegun};

use crate::fault::{HeadFault, ImageFault};
use crate::fill::read_behind;
use crate::part::document_of;
use crate::scan::{LONGEST_PART, shortest};
use eb_base::{Document, NoMemory};
use eb_io::{Got, Source};
use std::alloc::Global;

/// Reads what comes after the head of an image, or after one of its parts. It holds no byte of it.
#[derive(Debug, Drop)]
pub struct ImageReader {
    // only a reader of a head makes one
    _made: (),
}

// Reads a part, or the byte 0, into the start of the buffer, and returns how many bytes it has.
fn read_next<S: Source>(source: &mut S, buffer: &mut [u8]) -> Result<usize, HeadFault>
    requires { length buffer.old ≡ LONGEST_PART }
    ensures ok { IfOk result (λ n. (n ≤ LONGEST_PART) × IsNextPart (take n buffer.new)
        × (S.left source.old ≡ after (take n buffer.new) (S.left source.new))) }
    ensures bad { IsErrOf result HeadFault.BadImage
        → (taken : List ℕ) × (S.left source.old ≡ after taken (S.left source.new)) × IsBad IsNextPart taken (S.left source.new) }
    ensures fault { IsErrOf result HeadFault.ReadFault → (taken : List ℕ) × (S.left source.old ≡ after taken (S.left source.new))
        × HasBegun IsNextPart taken × HasRisen (S.faults source.old) (S.faults source.new) }
    ensures later { S.faults source.old ≤ S.faults source.new }
{
    let mut have = 0;
    let mut whole = 1;
    'reads: while have < whole {
        match read_behind(source, buffer, have, whole) {
            Got::Bytes(count) => have += count,
            Got::End => return Err(HeadFault::BadImage),
            Got::Failed => return Err(HeadFault::ReadFault),
        }
        match shortest(&buffer[..have]) {
            Some(end) => whole = end,
            None => return Err(HeadFault::BadImage),
        }
    }
    Ok(have)
}

impl ImageReader {
    // The reader of what comes after a head.
    pub(crate) fn new() -> ImageReader {
        ImageReader { _made: () }
    }

    /// Reads the next part, exactly its bytes, and returns its document and the reader of what
    /// comes after it; `None` exactly after the byte 0, which is taken then.
    ///
    /// After a fault the bytes taken are gone from the source, and this reading is over. Takes
    /// memory for the document.
    pub fn next<S: Source>(
        self,
        alloc: Global,
        source: &mut S,
    ) -> Result<Option<(Document, ImageReader)>, ImageFault>
        // the bytes taken are the part of the document, which is within the limits
        ensures part { IfOk result (λ read. IfSome read (λ part.
            IsDocument part.0 × (S.left source.old ≡ after (document_part part.0) (S.left source.new)))) }
        ensures none { result ≡ Ok None → S.left source.old ≡ after last_byte (S.left source.new) }
        ensures bad { IsErrOf result ImageFault.BadImage
            → (taken : List ℕ) × (S.left source.old ≡ after taken (S.left source.new)) × IsBad IsNextPart taken (S.left source.new) }
        ensures fault { IsErrOf result ImageFault.ReadFault → (taken : List ℕ) × (S.left source.old ≡ after taken (S.left source.new))
            × HasBegun IsNextPart taken × HasRisen (S.faults source.old) (S.faults source.new) }
        // without memory the part was taken
        ensures memory { IsErrOf result ImageFault.NoMemory
            → (taken : List ℕ) × IsPart taken × (S.left source.old ≡ after taken (S.left source.new)) }
        ensures later { S.faults source.old ≤ S.faults source.new }
    {
        let mut buffer = [0; LONGEST_PART];
        let len = match read_next(source, buffer.as_mut_slice()) {
            Ok(len) => len,
            Err(HeadFault::BadImage) => return Err(ImageFault::BadImage),
            Err(HeadFault::ReadFault) => return Err(ImageFault::ReadFault),
        };
        let bytes = &buffer[..len];
        if bytes[0] == 0 {
            return Ok(None);
        }
        match document_of(alloc, bytes) {
            Ok(document) => Ok(Some((document, self))),
            Err(NoMemory) => Err(ImageFault::NoMemory),
        }
    }
}

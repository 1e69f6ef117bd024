//! What some bytes begin with, where an image is read from them.
ghost use Rattle.std.specs.Prelude.{ℕ, ◌<◌, List, length, IfOk, IsErr};
ghost use Rattle.eb_image.specs.First.{IsFirstHead, IsFirstPart, IsFirstLength};
ghost use Rattle.eb_image.specs.Image.{IsFront};
ghost use Rattle.eb_image.specs.Reading.{IsPart};

use crate::head::{HEAD, begins_head, setting_of};
use crate::part::document_of;
use crate::scan::shortest;
use eb_base::{Config, Document, NoMemory};
use std::alloc::Global;

/// What some bytes begin with, where the head of an image is to come.
#[derive(Clone, Copy, Debug, PartialEq, Eq)]
pub enum FirstHead {
    /// The head of this setting, which is allowed.
    Head(Config),
    /// They are the first bytes of the head of an allowed setting, and not all of it.
    More,
    /// They begin no head of an allowed setting.
    Bad,
}

/// What some bytes begin with, where a part of an image is to come, or the byte 0 after the last.
#[derive(Debug, Drop)]
pub enum FirstPart {
    /// The part of this document, which is within the limits; it has this many bytes.
    Part(Document, usize),
    /// The byte 0.
    Last,
    /// They are the first bytes of the part of a document within the limits, and not all of it; or
    /// there are none.
    More,
    /// They begin no part of a document within the limits, and no byte 0.
    Bad,
}

// How many bytes the first part has, or the byte 0.
enum FirstLength {
    // A whole one is there.
    Whole(usize),
    // The bytes begin one, and a whole one isn't there.
    More,
    // They begin none.
    Bad,
}

/// The head that the bytes begin with. Takes no memory.
pub fn first_head(bytes: &[u8]) -> FirstHead
    ensures { IsFirstHead bytes.now result }
{
    if bytes.len() < HEAD {
        return short_head(bytes);
    }
    match setting_of(&bytes[..HEAD]) {
        Some(config) => FirstHead::Head(config),
        None => FirstHead::Bad,
    }
}

// What fewer bytes than a head has begin with.
fn short_head(bytes: &[u8]) -> FirstHead
    requires { length bytes.now < HEAD }
    ensures { IsFirstHead bytes.now result }
{
    if begins_head(bytes) {
        FirstHead::More
    } else {
        FirstHead::Bad
    }
}

// How many bytes the part has that the bytes begin with, or the byte 0.
fn first_length(bytes: &[u8]) -> FirstLength
    ensures { IsFirstLength bytes.now result }
{
    let mut have = 0;
    let mut whole = 1;
    'parts: while have < whole {
        let next = whole.min(bytes.len());
        if next == have {
            return FirstLength::More;
        }
        match shortest(&bytes[..next]) {
            Some(end) => whole = end,
            None => return FirstLength::Bad,
        }
        have = next;
    }
    FirstLength::Whole(have)
}

/// The part that the bytes begin with, or the byte 0. Takes memory for the document of a part.
pub fn first_part(alloc: Global, bytes: &[u8]) -> Result<FirstPart, NoMemory>
    ensures first { IfOk result (λ first. IsFirstPart bytes.now first) }
    // without memory there is a part
    ensures memory { IsErr result → (part : List ℕ) × IsPart part × IsFront part bytes.now }
{
    match first_length(bytes) {
        FirstLength::Whole(len) => whole_part(alloc, bytes, len),
        FirstLength::More => Ok(FirstPart::More),
        FirstLength::Bad => Ok(FirstPart::Bad),
    }
}

// The part, or the byte 0, that has this many of the first bytes.
fn whole_part(alloc: Global, bytes: &[u8], len: usize) -> Result<FirstPart, NoMemory>
    requires { IsFirstLength bytes.now (FirstLength.Whole len) }
    ensures first { IfOk result (λ first. IsFirstPart bytes.now first) }
    ensures memory { IsErr result → (part : List ℕ) × IsPart part × IsFront part bytes.now }
{
    let part = &bytes[..len];
    if part[0] == 0 {
        return Ok(FirstPart::Last);
    }
    match document_of(alloc, part) {
        Ok(document) => Ok(FirstPart::Part(document, len)),
        Err(NoMemory) => Err(NoMemory),
    }
}

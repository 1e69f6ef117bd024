ghost use Rattle.std.specs.Prelude.{◌≡◌, ◌-◌, ◌^◌, ◌<◌};
ghost use Rattle.eb_place.specs.Postings.{
  position_bits,
  posting_bits,
  places,
  posting_of,
  posting_document,
  posting_position,
};

/// A posting: where a term occurs in a segment. The document's number in the segment is above the
/// position in the document (the Earlybird paper of 2012).
pub type Posting = u64;

/// The lowest bits of a posting, which hold the position; the bits above hold the document's
/// number.
pub const POSITION_BITS: u32 = 16;

/// The places of a document: a posting is its document's number times this, plus its position.
pub const PLACES: u64 = 1 << POSITION_BITS;

/// All bits of a posting: 24 of the document's number (the Earlybird paper of 2012) and 16 of the
/// position (this project's profile, docs/FORMATS.md).
pub const POSTING_BITS: u32 = 40;

/// The posting of a position in a document, by the document's number in its segment.
pub fn posting(document: u32, position: u32) -> Posting
    requires document { document < 2 ^ (posting_bits - position_bits) }
    requires position { position < places }
    ensures { result ≡ posting_of document position }
{
    (Posting::from(document) << POSITION_BITS) + Posting::from(position)
}

/// The posting that a word of a pool holds.
pub fn posting_in_word(word: u64) -> Posting
    requires { word < 2 ^ posting_bits }
    ensures { result ≡ word }
{
    (word % (1 << POSTING_BITS)) as Posting
}

/// The number of a posting's document in its segment.
pub fn document_of(posting: Posting) -> u32
    requires { posting < 2 ^ posting_bits }
    ensures { result ≡ posting_document posting }
{
    (posting >> POSITION_BITS) as u32
}

/// The position of a posting in its document.
pub fn position_of(posting: Posting) -> u32
    requires { posting < 2 ^ posting_bits }
    ensures { result ≡ posting_position posting }
{
    (posting % (1 << POSITION_BITS)) as u32
}

ghost use Rattle.std.specs.Prelude.{◌≡◌};
ghost use Rattle.eb_c.specs.Adding.{refusal_of};
ghost use Rattle.eb_c.specs.Numbers.{refusal_number};

use eb_doc::LineFault;

/// Why a call did nothing. C sees its number, from 1, and 16 where a handle isn't what the call
/// takes; the first ten have the names and the meaning of the refusals of the program `earlybird`.
#[derive(Clone, Copy, Debug, PartialEq, Eq)]
pub enum Refusal {
    /// The line isn't a document line, or isn't a query line, as the call wants one.
    BadLine,
    /// The line has more than 65,536 bytes.
    LongLine,
    /// A document line isn't one JSON value.
    BadJson,
    /// A document line has no number as its `id` or no string as its `text`.
    BadDocument,
    /// A document has more than 1,024 tokens, or more than 16,384 bytes of them.
    TooLong,
    /// There is no room for the document: it doesn't fit the last segment, and all segments are
    /// begun.
    Full,
    /// The number of matches isn't one of 1 to 1,000, or isn't written as a query line wants it.
    BadNumber,
    /// The query text isn't in the grammar; the call reports the column.
    BadQuery,
    /// A `(` or a `-` is at nesting 16.
    QueryTooDeep,
    /// The query has more than 64 nodes.
    QueryTooLarge,
    /// The text isn't UTF-8.
    BadText,
    /// Memory ran out. It can come for any line and text.
    NoMemory,
    /// The three numbers aren't a setting.
    BadSetting,
    /// There are not as many words as the setting needs.
    BadSize,
    /// The numbers aren't those of an index that was begun, or there are not as many words as its
    /// setting needs.
    NotBegun,
    /// How lines are to be read isn't in the grammar of the options that say it.
    BadReading,
    /// A watch has the number of the one that is to be set.
    WatchTaken,
    /// No watch has the number, and 10,000 are set.
    WatchesFull,
    /// No watch has the number of the one that is to be removed.
    NoWatch,
    /// The bytes begin no head of an image of an allowed setting, or no part of a document within
    /// the limits and no byte 0, as the call wants them.
    BadImage,
    /// The bytes begin what the call wants, and a whole one isn't there.
    MoreBytes,
    /// There is no room for the bytes.
    ShortRoom,
    /// The bytes begin with the byte 0, which ends an image.
    ImageEnd,
}

impl Refusal {
    // Its number, from 1.
    pub(crate) fn number(self) -> u32
        ensures { result ≡ refusal_number self }
    {
        match self {
            Refusal::BadLine => 1,
            Refusal::LongLine => 2,
            Refusal::BadJson => 3,
            Refusal::BadDocument => 4,
            Refusal::TooLong => 5,
            Refusal::Full => 6,
            Refusal::BadNumber => 7,
            Refusal::BadQuery => 8,
            Refusal::QueryTooDeep => 9,
            Refusal::QueryTooLarge => 10,
            Refusal::BadText => 11,
            Refusal::NoMemory => 12,
            Refusal::BadSetting => 13,
            Refusal::BadSize => 14,
            Refusal::NotBegun => 15,
            Refusal::BadReading => 17,
            Refusal::WatchTaken => 18,
            Refusal::WatchesFull => 19,
            Refusal::NoWatch => 20,
            Refusal::BadImage => 21,
            Refusal::MoreBytes => 22,
            Refusal::ShortRoom => 23,
            Refusal::ImageEnd => 24,
        }
    }
}

// The refusal that a fault of a document is.
pub(crate) fn refusal_of(fault: LineFault) -> Refusal
    ensures { result ≡ refusal_of fault }
{
    match fault {
        LineFault::BadJson => Refusal::BadJson,
        LineFault::BadDocument => Refusal::BadDocument,
        LineFault::TooLong => Refusal::TooLong,
        LineFault::NoMemory => Refusal::NoMemory,
    }
}

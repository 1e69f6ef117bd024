//! The definitions of the index. `specs/` says which document fits which segment, where each
//! posting goes, which stores place a document and which convert a segment, and what the words are
//! at a moment. The functions compute the places and numbers that these definitions name. The
//! traits say who may load and store the words. No call takes memory.
#![tactic(auto)]

mod converter_laws;
mod laws;
mod moment;
mod places;
mod port;
mod posting_numbers;
mod slice_addresses;
mod steps;
mod storing_laws;
mod used;

pub use converter_laws::{converted_stays, converted_words, next_put_stays, postings_fall};
pub use laws::{
    each_document_fits, moments_meet, places_are_apart, put_changes_one_word,
    store_changes_one_word,
};
pub use moment::{Conversions, Documents, Moment};
pub use places::Places;
pub use port::{PackPen, Pen, Port};
pub use posting_numbers::{
    PLACES, POSITION_BITS, POSTING_BITS, Posting, document_of, position_of, posting,
    posting_in_word,
};
pub use slice_addresses::{address, offset_of, pool_of, slice_of};
pub use steps::Steps;
pub use storing_laws::{
    entered_with_the_cell, packing_fits, reached_words_stay, stored_once, stores_lie_in_regions,
};
pub use used::Used;

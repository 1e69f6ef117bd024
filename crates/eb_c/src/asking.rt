//! Questions to an index that was begun.
ghost use Rattle.std.specs.Prelude.{◌≡◌, ◌<◌, List, length};
ghost use Rattle.eb_base.specs.Document.{Doc};
ghost use Rattle.eb_base.specs.Match.{answer as answer_of};
ghost use Rattle.eb_place.specs.declared.moment.Moment.{Moment};
ghost use Rattle.eb_flat.specs.Flat.{StandsFor};
ghost use Rattle.eb_cursor.specs.Frames.{query_of, k_of, ids_of};
ghost use Rattle.eb_c.specs.Holding.{IsBegunIndex, Holds, IsIndex};
ghost use Rattle.eb_c.specs.Asking.{asked_of, ids_told, written, nothing_told, Tells};

use crate::index::{Answer, Index, begun_setting};
use crate::reading::Question;
use crate::refusal::Refusal;
use eb_base::{Config, OpenGate};
use eb_cursor::Frame;
use eb_flat::LentWords;
use eb_place::Steps;
use eb_search::search;
use std::marker::Brand;
use std::sync::ledger::{Blank, Ledger};

// What is reported of a question that is refused.
pub(crate) fn refused(column: u64) -> Answer
    ensures { result ≡ nothing_told column }
{
    Answer {
        seen: 0,
        count: 0,
        column,
        written: 0,
    }
}

// Searches all accepted documents, and returns their number.
fn search_words<L: Ledger>(words: &[u64], config: Config, frame: &mut Frame, blank: Blank) -> u64
    requires blank { (blank.name ≡ L.name) × (blank.parts ≡ L.parts) × (0 < blank.parts) }
    requires words { (m : Moment) × StandsFor (record { setting = config; words = words.now }) m }
    ensures count { (m : Moment) → StandsFor (record { setting = config; words = words.now }) m → result ≡ length m.documents.accepted }
    ensures ids { (m : Moment) → StandsFor (record { setting = config; words = words.now }) m
        → ids_of frame.new ≡ answer_of (query_of frame.old) (k_of frame.old) m.documents.accepted }
{
    let mut steps = Steps::<L>::new(blank);
    let mut port = LentWords { config, words };
    search(&mut port, frame, &OpenGate, &mut steps)
}

// Writes the first of the ids, as many as there is room for, and reports how many there are and
// over how many documents.
pub(crate) fn put_ids(found: &[u64], seen: u64, ids: &mut [u64], answer: &mut Answer)
    ensures ids { ids.new ≡ written found.now ids.old }
    ensures answer { answer.new ≡ ids_told seen found.now (length ids.old) }
{
    let number = found.len().min(ids.len());
    ids[..number].copy_from_slice(&found[..number]);
    *answer = Answer {
        seen,
        count: found.len() as u64,
        column: 0,
        written: number as u64,
    };
}

// Answers what was read of a question, over an index that was begun: 0, or the number of the
// refusal.
pub(crate) fn ask_read(
    words: &[u64],
    index: &Index,
    read: Question,
    ids: &mut [u64],
    answer: &mut Answer,
) -> u32
    requires { IsBegunIndex index.now (length words.now) → IsIndex index.now words.now }
    ensures not_begun { (IsBegunIndex index.now (length words.now) → ⊥) → (result ≡ 15) × (answer.new ≡ nothing_told 0) × (ids.new ≡ ids.old) }
    ensures told { (docs : List Doc) → Holds index.now words.now docs → Tells docs (asked_of read) result answer.new ids.old ids.new }
{
    let Some(config) = begun_setting(index, words.len()) else {
        *answer = refused(0);
        return Refusal::NotBegun.number();
    };
    match read {
        Question::Asks(frame) => {
            let mut frame = frame;
            let seen = search_words::<Brand>(words, config, &mut frame, Blank::new(1));
            put_ids(frame.ids(), seen, ids, answer);
            0
        }
        Question::Refused(refusal, column) => {
            *answer = refused(column);
            refusal.number()
        }
    }
}

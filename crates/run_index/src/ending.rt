ghost use Rattle.std.specs.Prelude.{◌≡◌, ◌++◌, OnErr, OnOk};
ghost use Rattle.eb_lines.specs.Text.{summary_with};
ghost use Rattle.run_index.specs.IndexRules.{segments_tail};

use crate::converting::SegmentCounts;
use eb_base::NoMemory;
use eb_lines::{Form, Tail, put_summary};

/// How many documents were accepted, queries answered and lines refused.
#[derive(Clone, Copy, Debug, PartialEq, Eq)]
pub struct Counts {
    /// The accepted documents.
    pub documents: u64,
    /// The answered queries.
    pub queries: u64,
    /// The refused lines.
    pub refused: u64,
}

/// The segments, as they are printed beside the counts of a summary, or nothing.
pub fn tell_segments(form: Form, segments: SegmentCounts) -> Tail
    ensures { result ≡ segments_tail form segments.segments segments.converted }
{
    if !form.stats {
        return Tail::Nothing;
    }
    Tail::Segments {
        begun: u64::from(segments.segments),
        converted: u64::from(segments.converted),
    }
}

/// The end of a run, after the text: the summary, and the segments where they are printed. Where
/// memory runs out, the text is as before.
pub fn put_end(
    text: &mut Vec<u8>,
    form: Form,
    counts: Counts,
    segments: SegmentCounts,
) -> Result<(), NoMemory>
    ensures ok { OnOk result (text.new.items ≡ text.old.items
        ++ summary_with form counts.documents counts.queries counts.refused (segments_tail form segments.segments segments.converted)) }
    ensures err { OnErr result (text.new.items ≡ text.old.items) }
{
    let Counts {
        documents,
        queries,
        refused,
    } = counts;
    put_summary(
        text,
        form,
        documents,
        queries,
        refused,
        tell_segments(form, segments),
    )
}

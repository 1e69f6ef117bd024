ghost use Rattle.std.specs.Prelude.{◌≡◌, MatchOption};
ghost use Rattle.eb_base.specs.Setting.{Setting, IsSetting};
ghost use Rattle.eb_c.specs.Holding.{setting_of, used_of, progress_of, IsBegunIndex};

use eb_base::Config;
use eb_place::Used;
use eb_writer::Placer;

/// How much of a segment is used.
#[repr(C)]
#[derive(Clone, Copy, Debug, PartialEq, Eq)]
pub struct Segment {
    /// The documents of the segment.
    pub documents: u32,
    /// Their distinct terms.
    pub terms: u32,
    /// The text words of these terms.
    pub text: u32,
    /// The slices of pool 0 that their postings take.
    pub pool0: u32,
    /// Those of pool 1.
    pub pool1: u32,
    /// Those of pool 2.
    pub pool2: u32,
    /// Those of pool 3.
    pub pool3: u32,
}

/// The numbers of an index whose words the caller keeps. Only the calls of this crate write them.
#[repr(C)]
#[derive(Clone, Copy, Debug, PartialEq, Eq)]
pub struct Index {
    /// How many documents are accepted.
    pub documents: u64,
    /// 0x6561726c where the index was begun.
    pub mark: u32,
    /// The segments of the setting.
    pub segments: u32,
    /// The documents that a segment has room for.
    pub docs: u32,
    /// The terms that a segment has room for.
    pub terms: u32,
    /// How many segments are begun.
    pub begun: u32,
    /// How much of the last of them is used; all 0 where none is begun.
    pub last: Segment,
}

/// What a call that asks reports besides the ids.
#[repr(C)]
#[derive(Clone, Copy, Debug, PartialEq, Eq)]
pub struct Answer {
    /// How many documents were accepted; the answer is over all of them. 0 where the call is
    /// refused.
    pub seen: u64,
    /// How many ids the answer has, also where there is no room for all of them. 0 where the call
    /// is refused.
    pub count: u64,
    /// The column of a bad query's fault, counted from 1; else 0.
    pub column: u64,
    /// How many ids were written: all of the answer, or as many as there is room for. 0 where the
    /// call is refused.
    pub written: u64,
}

// The mark of an index that was begun: `earl`.
const MARK: u32 = 0x6561_726c;

// The setting of these numbers, where they are one.
pub(crate) fn setting(segments: u32, docs: u32, terms: u32) -> Option<Config>
    ensures { let σ : Setting = record { segments = segments; docs = docs; terms = terms } in
        MatchOption result (IsSetting σ → ⊥) (λ config. IsSetting σ × (config ≡ σ)) }
{
    match Config::new(segments, docs, terms) {
        Ok(config) => Some(config),
        Err(_) => None,
    }
}

// The setting of an index that has this many words, where it was begun.
pub(crate) fn begun_setting(index: &Index, words: usize) -> Option<Config>
    ensures { MatchOption result (IsBegunIndex index.now words → ⊥) (λ config. IsBegunIndex index.now words × (config ≡ setting_of index.now)) }
{
    let config = setting(index.segments, index.docs, index.terms)?;
    if index.mark != MARK || words as u64 != config.words() {
        return None;
    }
    Some(config)
}

// The placer that was put down in an index of this setting.
pub(crate) fn placer_of(index: &Index, config: Config) -> Placer
    requires { config ≡ setting_of index.now }
    ensures { result ≡ progress_of index.now }
{
    Placer::resume(config, index.begun, index.documents, used_of(&index.last))
}

// What is used of the last segment, as the placer has it.
fn used_of(last: &Segment) -> Used
    ensures { result ≡ used_of last.now }
{
    Used {
        documents: last.documents,
        terms: last.terms,
        text: last.text,
        pool0: last.pool0,
        pool1: last.pool1,
        pool2: last.pool2,
        pool3: last.pool3,
    }
}

// The index in which this placer is put down.
pub(crate) fn index_of(placer: &Placer) -> Index
    ensures mark { result.mark ≡ 0x6561_726c }
    ensures progress { progress_of result ≡ placer.now }
{
    let config = placer.config();
    let used = placer.used();
    Index {
        documents: placer.documents(),
        mark: MARK,
        segments: config.segments(),
        docs: config.docs(),
        terms: config.terms(),
        begun: placer.segments(),
        last: Segment {
            documents: used.documents,
            terms: used.terms,
            text: used.text,
            pool0: used.pool0,
            pool1: used.pool1,
            pool2: used.pool2,
            pool3: used.pool3,
        },
    }
}

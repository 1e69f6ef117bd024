//! Rounds by themselves: lines are put into them and processed by `step`, over an index as a run
//! has it.
ghost use Rattle.std.specs.Prelude.{◌≡◌, ◌≤◌, IfOk};

use eb_base::{Config, OpenGate};
use eb_engine::{Converter, Index, Reader, Writer};
use eb_fields::Dialect;
use eb_lines::{Form, LineKind, Refusal, plain_kind};
use eb_rounds::{Input, Rounds};
use run_index::Counts;
use std::alloc::Global;
use std::test::Fail;
use std::thread::Threads;

// An index with its tokens, rounds that process lines over it, the number of the last line, and
// what was printed.
#[derive(Drop)]
struct Desk {
    index: Index,
    writer: Writer,
    reader: Reader,
    converter: Converter,
    rounds: Rounds,
    number: u64,
    printed: Vec<u8>,
}

const WORDS: Form = Form {
    json: false,
    stats: false,
};

impl Desk {
    // Without a line.
    fn new(alloc: Global, config: Config) -> Result<Desk, Fail>
        ensures { IfOk result (λ desk. (desk.writer.index ≡ desk.index) × (desk.reader.index ≡ desk.index) × (desk.converter.index ≡ desk.index)
            × (desk.rounds.greatest ≤ desk.number)) }
    {
        let (index, mut writer, converter) = Index::open(alloc, config)?;
        let reader = writer.reader(&index);
        Ok(Desk {
            index,
            writer,
            reader,
            converter,
            rounds: Rounds::new(alloc),
            number: 0,
            printed: Vec::new(alloc),
        })
    }

    // Processes what is held.
    fn step<R: Threads + Sync>(&mut self, rt: &R, alloc: Global) -> Result<(), Fail>
        requires { (self.old.writer.index ≡ self.old.index) × (self.old.reader.index ≡ self.old.index) × (self.old.converter.index ≡ self.old.index)
            × (self.old.rounds.greatest ≤ self.old.number) }
        ensures { (self.new.writer.index ≡ self.new.index) × (self.new.reader.index ≡ self.new.index) × (self.new.converter.index ≡ self.new.index)
            × (self.new.rounds.greatest ≤ self.new.number) }
    {
        let text = self.rounds.step(
            rt,
            alloc,
            &self.index,
            &mut self.writer,
            &mut self.reader,
            &mut self.converter,
            &OpenGate,
            Dialect::plain(),
            WORDS,
        )?;
        self.printed.reserve(text.len())?;
        self.printed.extend_from_slice(text.as_slice()).unwrap();
        Ok(())
    }

    // Takes the next line, which isn't blank, and processes what is held where it doesn't go after
    // that.
    fn hold<R: Threads + Sync>(
        &mut self,
        rt: &R,
        alloc: Global,
        input: Input<'_>,
    ) -> Result<(), Fail>
        requires stands { (self.old.writer.index ≡ self.old.index) × (self.old.reader.index ≡ self.old.index) × (self.old.converter.index ≡ self.old.index)
            × (self.old.rounds.greatest ≤ self.old.number) }
        ensures { (self.new.writer.index ≡ self.new.index) × (self.new.reader.index ≡ self.new.index) × (self.new.converter.index ≡ self.new.index)
            × (self.new.rounds.greatest ≤ self.new.number) }
    {
        if !self.rounds.takes(input.kind()) {
            self.step(rt, alloc)?;
        }
        if !self.rounds.takes(input.kind()) {
            return Err(Fail::new("a round without a line takes none"));
        }
        let Some(number) = self.number.checked_add(1) else {
            return Err(Fail::new("too many lines"));
        };
        self.rounds.put(number, input)?;
        self.number = number;
        Ok(())
    }

    // Takes the next line.
    fn take<R: Threads + Sync>(&mut self, rt: &R, alloc: Global, line: &str) -> Result<(), Fail>
        requires { (self.old.writer.index ≡ self.old.index) × (self.old.reader.index ≡ self.old.index) × (self.old.converter.index ≡ self.old.index)
            × (self.old.rounds.greatest ≤ self.old.number) }
        ensures { (self.new.writer.index ≡ self.new.index) × (self.new.reader.index ≡ self.new.index) × (self.new.converter.index ≡ self.new.index)
            × (self.new.rounds.greatest ≤ self.new.number) }
    {
        match plain_kind(line.as_bytes()) {
            LineKind::Blank => {
                self.number = self.number.saturating_add(1);
                Ok(())
            }
            LineKind::Document => self.hold(rt, alloc, Input::DocumentLine(line.as_bytes())),
            LineKind::Query(query) => self.hold(rt, alloc, Input::QueryLine(query)),
            LineKind::Bad => self.hold(rt, alloc, Input::RefusedLine(Refusal::BadLine)),
        }
    }
}

// What the lines of a text print, in rounds of as many lines as a round takes, or of one line each.
fn printed<R: Threads + Sync>(
    rt: &R,
    alloc: Global,
    config: Config,
    text: &str,
    alone: bool,
) -> Result<(Vec<u8>, Counts), Fail> {
    let mut desk = Desk::new(alloc, config)?;
    for line in text.lines() {
        desk.take(rt, alloc, line)?;
        if alone {
            desk.step(rt, alloc)?;
        }
    }
    desk.step(rt, alloc)?;
    Ok((desk.printed, desk.rounds.counts()))
}

// Lines over an index of this many segments, documents a segment and terms; what they print, in
// each text that is allowed; and how many documents are accepted, queries answered and lines
// refused.
struct Row {
    setting: (u32, u32, u32),
    lines: &'static str,
    allowed: &'static [&'static str],
    counts: (u64, u64, u64),
}

const ROWS: [Row; 8] = [
    Row {
        setting: (2, 10, 1024),
        lines: "{\"id\":7,\"text\":\"hello world\"}\n?5 hello\n",
        allowed: &["2 seen 1: 7\n"],
        counts: (1, 1, 0),
    },
    Row {
        setting: (2, 10, 1024),
        lines: "?5 a\n{\"id\":1,\"text\":\"a\"}\n?5 a\n",
        allowed: &["1 seen 0:\n3 seen 1: 1\n", "1 seen 1: 1\n3 seen 1: 1\n"],
        counts: (1, 2, 0),
    },
    Row {
        setting: (2, 10, 1024),
        lines: "{\"id\":1,\"text\":\"a\"}\n{\"id\":2,\"text\":\"a\"}\n{\"id\":3,\"text\":\"a\"}\n?2 a\n?1000 a\n?0 a\n?1001 a\n?0002 a\n",
        allowed: &[
            "4 seen 3: 3 2\n5 seen 3: 3 2 1\n6 refused: bad number\n7 refused: bad number\n8 seen 3: 3 2\n",
        ],
        counts: (3, 3, 2),
    },
    Row {
        setting: (2, 10, 1024),
        lines: "{\"id\":1,\"text\":\"a b\"}\n{\"id\":2,\"text\":\"c d\"}\n?5 \"b c\"\n?5 b c\n?5 b OR c\n",
        allowed: &["3 seen 2:\n4 seen 2:\n5 seen 2: 2 1\n"],
        counts: (2, 3, 0),
    },
    Row {
        setting: (1, 1, 1024),
        lines: "{\"id\":1,\"text\":\"a\"}\n{\"id\":2,\"text\":\"a\"}\n?5 a\n",
        allowed: &["2 refused: full\n3 seen 1: 1\n"],
        counts: (1, 1, 1),
    },
    Row {
        setting: (2, 2, 1024),
        lines: "{\"id\":1,\"text\":\"a\"}\n{\"id\":2,\"text\":\"a\"}\n{\"id\":3,\"text\":\"a\"}\n{\"id\":4,\"text\":\"a\"}\n\
            {\"id\":5,\"text\":\"a\"}\n\n?9 a\n",
        allowed: &["5 refused: full\n7 seen 4: 4 3 2 1\n"],
        counts: (4, 1, 1),
    },
    Row {
        setting: (2, 10, 1024),
        lines: "hello\n {\"id\":1,\"text\":\"a\"}\n{\"id\":1\n{\"text\":\"a\"}\n{\"id\":18446744073709551615,\"text\":\"a\",\"x\":[1,{\"y\":null}]}\n?1 a\n",
        allowed: &[
            "1 refused: bad line\n2 refused: bad line\n3 refused: bad json\n4 refused: bad document\n6 seen 1: 18446744073709551615\n",
        ],
        counts: (1, 1, 4),
    },
    Row {
        setting: (2, 10, 1024),
        lines: "{\"id\":1,\"text\":\"a\"}\n?5 a\n{\"id\":2,\"text\":\"a\"}\n{\"id\":3,\"text\":\"a\"}\n?5 a\n",
        allowed: &[
            "2 seen 1: 1\n5 seen 3: 3 2 1\n",
            "2 seen 2: 2 1\n5 seen 3: 3 2 1\n",
            "2 seen 3: 3 2 1\n5 seen 3: 3 2 1\n",
        ],
        counts: (3, 2, 0),
    },
];

// Whether a row's lines print a text that is allowed, where each line is a round (then the first
// one), or each round takes as many as it may; and are counted so.
fn is_right<R: Threads + Sync>(
    rt: &R,
    alloc: Global,
    row: &Row,
    alone: bool,
) -> Result<bool, Fail> {
    let (segments, docs, terms) = row.setting;
    let (text, counts) = printed(
        rt,
        alloc,
        Config::new(segments, docs, terms)?,
        row.lines,
        alone,
    )?;
    let most = if alone { 1 } else { row.allowed.len() };
    Ok(
        row.allowed
            .iter()
            .take(most)
            .any(|one| text.as_slice() == one.as_bytes())
            && row.counts == (counts.documents, counts.queries, counts.refused),
    )
}

#[test]
fn rounds_print_what_their_lines_come_to(rt: HostRuntime) -> Result<(), Fail> {
    for (at, row) in ROWS.iter().enumerate() {
        assert!(rt; is_right(&rt, rt.alloc(), row, true)?, "{at}, alone");
        assert!(rt; is_right(&rt, rt.alloc(), row, false)?, "{at}");
    }
    Ok(())
}

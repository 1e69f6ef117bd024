//! Counts of the documents 0 to 389 over four segments, before and after two of these are
//! converted; worked by hand. `d` is in each document, `a` in those of even ids.
ghost use Rattle.std.specs.Prelude.{◌≡◌, ◌<◌};

use super::conversions::add_all;
use super::made::{documents, frame, word};
use eb_base::{Config, OpenGate};
use eb_count::Tally;
use eb_cursor::Frame;
use eb_engine::{Index, Reader, Writer};
use std::alloc::Global;
use std::process::Abort;
use std::test::Fail;

// Counts twice into one tally, by the writer and by a reader, after the tally is cleared: each adds
// the same.
fn counted(index: &Index, writer: &mut Writer, frame: &mut Frame, tally: &mut Tally) -> (u64, u64)
    requires { writer.old.index ≡ index.now }
    ensures { writer.new.index ≡ index.now }
{
    tally.clear();
    let first = writer.count_unmetered(index, frame, tally, &OpenGate);
    let mut reader = writer.reader(index);
    let second = reader.count_unmetered(index, frame, tally, &OpenGate);
    (first, second)
}

// What is counted of a term twice: in all, and in the buckets 10 to 109, 110 to 209, 210 to 309 and
// 310 to 409.
const COUNTS: [(&[u8], u64, [u64; 4]); 4] = [
    (b"d", 780, [200, 200, 200, 160]),
    (b"a", 390, [100, 100, 100, 80]),
    (b"c", 156, [40, 40, 40, 32]),
    (b"z", 0, [0, 0, 0, 0]),
];

fn are_counted(
    rt: &impl Abort,
    alloc: Global,
    index: &Index,
    writer: &mut Writer,
) -> Result<(), Fail>
    requires { writer.old.index ≡ index.now }
    ensures { writer.new.index ≡ index.now }
{
    let mut buckets = Tally::with_buckets(alloc, 10, 100, 4)?;
    let mut all = Tally::of_all(alloc);
    for (term, total, each) in COUNTS {
        let mut frame = frame(alloc, word(alloc, term)?)?;
        assert_eq!(rt;
            counted(index, writer, &mut frame, &mut buckets),
            (390, 390)
        );
        assert_eq!(rt;
            (buckets.total(), buckets.buckets()),
            (total, each.as_slice())
        );
        assert_eq!(rt; counted(index, writer, &mut frame, &mut all), (390, 390));
        assert_eq!(rt; (all.total(), all.buckets().len()), (total, 0));
    }
    Ok(())
}

#[test]
fn totals_and_buckets(rt: HostRuntime) -> Result<(), Fail> {
    let alloc = rt.alloc();
    let documents = documents(alloc)?;
    let (index, mut writer, mut converter) = Index::open(alloc, Config::new(4, 100, 1024)?)?;
    add_all(&index, &mut writer, documents.as_slice());
    are_counted(&rt, alloc, &index, &mut writer)?;
    converter.meet(&index, writer.reader(&index));
    converter.convert(&index);
    converter.convert(&index);
    writer.hear(&index, &mut converter);
    assert_eq!(rt; converter.converted(), 2);
    are_counted(&rt, alloc, &index, &mut writer)
}

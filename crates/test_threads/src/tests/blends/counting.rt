//! Counts of the documents 1 to 30 in three parts; worked by hand. `b` is in those of even ids, `d`
//! in those that 5 divides.
ghost use Rattle.std.specs.Prelude.{◌≡◌, ◌<◌};

use super::made::{added, word};
use eb_base::{Config, OpenGate};
use eb_blend::{Blend, BlendReader, BlendWriter};
use eb_count::Tally;
use eb_cursor::Frame;
use eb_place::Steps;
use std::alloc::Global;
use std::marker::Brand;
use std::process::Abort;
use std::sync::ledger::{Blank, Ledger};
use std::test::Fail;

fn count_alone<L: Ledger>(
    reader: &mut BlendReader,
    blend: &Blend,
    frame: &mut Frame,
    tally: &mut Tally,
    blank: Blank,
)
    requires blank { (blank.name ≡ L.name) × (blank.parts ≡ L.parts) × (0 < blank.parts) }
    requires made { reader.old.indexes ≡ blend.now.indexes }
{
    let mut steps = Steps::<L>::new(blank);
    reader.count(blend, frame, tally, &OpenGate, &mut steps);
}

// Counts with a counter of its own.
fn counted(reader: &mut BlendReader, blend: &Blend, frame: &mut Frame, tally: &mut Tally)
    requires { reader.old.indexes ≡ blend.now.indexes }
{
    count_alone::<Brand>(reader, blend, frame, tally, Blank::new(1));
}

// What is counted: in all, and in the buckets 1 to 10, 11 to 20 and 21 to 30.
const COUNTS: [(&[u8], u64, [u64; 3]); 2] = [(b"b", 15, [5, 5, 5]), (b"d", 6, [2, 2, 2])];

// Adds the documents 1 to 30.
fn add_thirty(
    rt: &impl Abort,
    alloc: Global,
    blend: &Blend,
    writer: &mut BlendWriter,
) -> Result<(), Fail>
    requires { writer.old.indexes ≡ blend.now.indexes }
    ensures { writer.new.indexes ≡ writer.old.indexes }
{
    for id in 1..31 {
        assert_eq!(rt; added(alloc, blend, writer, id)?, Ok(id));
    }
    Ok(())
}

fn are_summed(
    rt: &impl Abort,
    alloc: Global,
    blend: &Blend,
    writer: &mut BlendWriter,
) -> Result<(), Fail>
    requires { writer.old.indexes ≡ blend.now.indexes }
{
    for (term, total, each) in COUNTS {
        let query = word(alloc, term)?;
        if !query.is_well_formed() {
            return Err(Fail::new("no such query"));
        }
        let mut frame = Frame::new(alloc, query, 1)?;
        let mut tally = Tally::with_buckets(alloc, 1, 10, 3)?;
        let mut reader = writer.reader(alloc, blend)?;
        counted(&mut reader, blend, &mut frame, &mut tally);
        assert_eq!(rt; (tally.total(), tally.buckets()), (total, each.as_slice()));
    }
    Ok(())
}

#[test]
fn parts_are_summed(rt: HostRuntime) -> Result<(), Fail> {
    let alloc = rt.alloc();
    let (blend, mut writer, _converter) = Blend::open(alloc, 3, Config::new(4, 4, 1024)?)?;
    add_thirty(&rt, alloc, &blend, &mut writer)?;
    are_summed(&rt, alloc, &blend, &mut writer)
}

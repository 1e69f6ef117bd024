//! Rows that were worked by hand.
ghost use Rattle.std.specs.Prelude.{◌≡◌, length};

use super::made::{added, asked, word};
use eb_base::Config;
use eb_blend::{Blend, BlendRefusal, BlendWriter};
use std::alloc::Global;
use std::process::Abort;
use std::test::Fail;

// Adds documents of these ids, and looks at what each add answers.
fn add_all(
    rt: &impl Abort,
    alloc: Global,
    blend: &Blend,
    writer: &mut BlendWriter,
    rows: &[(u64, Result<u64, BlendRefusal>)],
) -> Result<(), Fail>
    requires { writer.old.indexes ≡ blend.now.indexes }
    ensures { writer.new.indexes ≡ writer.old.indexes }
{
    for (id, want) in rows {
        let answer = added(alloc, blend, writer, *id)?;
        assert_eq!(rt; answer, *want, "{id}");
    }
    Ok(())
}

// Asserts that the documents with `a` in two parts are these, among this many in each part.
fn finds(
    rt: &impl Abort,
    alloc: Global,
    blend: &Blend,
    writer: &mut BlendWriter,
    ids: &[u64],
    lengths: &[u64],
) -> Result<(), Fail>
    requires made { writer.old.indexes ≡ blend.now.indexes }
    requires parts { length blend.now.indexes ≡ 2 }
    ensures { writer.new ≡ writer.old }
{
    let query = word(alloc, b"a")?;
    if !query.is_well_formed() {
        return Err(Fail::new("no such query"));
    }
    let (frame, count, heard) = asked(alloc, blend, writer, &query, 3, 2)?;
    let found = (frame.ids(), frame.lengths(), count, heard);
    assert_eq!(rt; found, (ids, lengths, writer.accepted(), writer.accepted()));
    Ok(())
}

// Ids that must rise.
const RISING: [(u64, Result<u64, BlendRefusal>); 5] = [
    (1, Ok(1)),
    (2, Ok(2)),
    (4, Ok(3)),
    (3, Err(BlendRefusal::NotRising { last: 4 })),
    (5, Ok(4)),
];

#[test]
fn ids_must_rise(rt: HostRuntime) -> Result<(), Fail> {
    let config = Config::new(1, 8, 1024)?;
    let (blend, mut writer, _converter) = Blend::open(rt.alloc(), 2, config)?;
    add_all(&rt, rt.alloc(), &blend, &mut writer, &RISING)?;
    assert_eq!(rt; (writer.accepted(), writer.segments()), (4, 2));
    finds(&rt, rt.alloc(), &blend, &mut writer, &[5, 4, 2], &[2, 2])
}

// Ids for parts of one document each.
const FULL: [(u64, Result<u64, BlendRefusal>); 3] = [
    (1, Ok(1)),
    (3, Err(BlendRefusal::Full { part: 1 })),
    (2, Ok(2)),
];

#[test]
fn a_full_part_keeps_the_last_id(rt: HostRuntime) -> Result<(), Fail> {
    let config = Config::new(1, 1, 1024)?;
    let (blend, mut writer, _converter) = Blend::open(rt.alloc(), 2, config)?;
    add_all(&rt, rt.alloc(), &blend, &mut writer, &FULL)?;
    assert_eq!(rt; writer.accepted(), 2);
    finds(&rt, rt.alloc(), &blend, &mut writer, &[2, 1], &[1, 1])
}

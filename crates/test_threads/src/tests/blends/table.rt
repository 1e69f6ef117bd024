//! Some hundred documents, compared with the plain scan of one history.
ghost use Rattle.std.specs.Prelude.{◌≡◌, length};

use super::made::{asked, document, word};
use eb_base::{Config, Document, OpenGate};
use eb_blend::{Blend, BlendWriter};
use eb_plain::newest;
use std::alloc::Global;
use std::process::Abort;
use std::test::Fail;

// What is asked for.
const WORDS: [&[u8]; 3] = [b"a", b"b", b"c"];

// Asks for a word, and compares.
fn ask(
    rt: &impl Abort,
    alloc: Global,
    blend: &Blend,
    writer: &mut BlendWriter,
    history: &[Document],
) -> Result<(), Fail>
    requires made { writer.old.indexes ≡ blend.now.indexes }
    requires parts { length blend.now.indexes ≡ 4 }
    ensures { writer.new.indexes ≡ writer.old.indexes }
{
    let query = word(alloc, WORDS[history.len() % 3])?;
    if !query.is_well_formed() {
        return Err(Fail::new("no such query"));
    }
    let want = newest(alloc, &query, 9, history)?;
    let (frame, count, heard) = asked(alloc, blend, writer, &query, 9, 4)?;
    let found = (count, heard, frame.ids());
    let length = history.len() as u64;
    assert_eq!(rt; found, (length, length, want.as_slice()));
    Ok(())
}

// Adds a made document, and asks.
fn add(
    rt: &impl Abort,
    alloc: Global,
    blend: &Blend,
    writer: &mut BlendWriter,
    history: &mut Vec<Document>,
    number: u64,
) -> Result<(), Fail>
    requires made { writer.old.indexes ≡ blend.now.indexes }
    requires parts { length blend.now.indexes ≡ 4 }
    ensures { writer.new.indexes ≡ writer.old.indexes }
{
    let document = document(alloc, number.saturating_add(number / 7))?;
    if writer.add(blend, &document, &OpenGate).is_err() {
        return Err(Fail::new("refused"));
    }
    history.push(document)?;
    ask(rt, alloc, blend, writer, history.as_slice())
}

// Adds this many made documents, and asks after each.
fn fill(
    rt: &impl Abort,
    alloc: Global,
    blend: &Blend,
    writer: &mut BlendWriter,
    history: &mut Vec<Document>,
) -> Result<(), Fail>
    requires made { writer.old.indexes ≡ blend.now.indexes }
    requires parts { length blend.now.indexes ≡ 4 }
    ensures { writer.new.indexes ≡ writer.old.indexes }
{
    for number in 0..300u64 {
        add(rt, alloc, blend, writer, history, number)?;
    }
    Ok(())
}

#[test]
fn four_parts_answer_as_one_history(rt: HostRuntime) -> Result<(), Fail> {
    let alloc = rt.alloc();
    let config = Config::new(10, 10, 1024)?;
    let (blend, mut writer, mut converter) = Blend::open(alloc, 4, config)?;
    let mut history = Vec::new(alloc);
    fill(&rt, alloc, &blend, &mut writer, &mut history)?;
    let reader = writer.reader(alloc, &blend)?;
    converter.meet(&blend, reader);
    let grown = converter.convert_all(&blend);
    assert_eq!(rt; converter.converted(), grown);
    assert_eq!(rt; writer.segments().saturating_sub(4), grown);
    writer.hear(&blend, &mut converter);
    ask(&rt, alloc, &blend, &mut writer, history.as_slice())
}

ghost use Rattle.std.specs.Prelude.{◌≡◌, ◌≤◌, IfSome, map, string_bytes};
ghost use Rattle.eb_run.specs.Command.{bench_of, bench_docs, IsInRange};

use crate::command::Command;
use eb_options::{read_nine, read_number};

// The most documents of made input.
const MAX_BENCH_DOCS: u32 = 40_000;

// The number of documents that the word asks for.
fn read_docs(word: &str) -> Option<u32>
    ensures docs { result ≡ bench_docs word.now }
    ensures range { IfSome result (λ docs. docs ≤ 40000) }
{
    let docs = read_nine(word)?;
    if docs < 1 || docs > MAX_BENCH_DOCS {
        return None;
    }
    Some(docs)
}

// What the words after `bench` ask for.
pub(super) fn read_bench(words: &[String]) -> Option<Command>
    ensures bench { result ≡ bench_of (map string_bytes words.now) }
    ensures range { IfSome result IsInRange }
{
    if words.len() != 2 {
        return None;
    }
    let start = read_number(words[0].as_str(), 20)?;
    let docs = read_docs(words[1].as_str())?;
    Some(Command::Bench { start, docs })
}

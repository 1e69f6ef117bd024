//! What commands and feeds words ask for.
use super::words_of;
use eb_fields::{Fields, MAX_NAMES};
use eb_run::{read_command, read_feed_command};
use std::alloc::Global;
use std::fmt::Write;
use std::test::Fail;

const COMMANDS: [(&str, &str); 27] = [
    (
        "run",
        "Run { mode: InOrder, form: Form { json: false, stats: false }, config: Config { segments: 12, docs: 4096, terms: 8192 } }",
    ),
    (
        "run --overlap",
        "Run { mode: Overlap, form: Form { json: false, stats: false }, config: Config { segments: 12, docs: 4096, terms: 8192 } }",
    ),
    (
        "run --docs=1",
        "Run { mode: InOrder, form: Form { json: false, stats: false }, config: Config { segments: 12, docs: 1, terms: 8192 } }",
    ),
    (
        "run --docs 1 --segments=1",
        "Run { mode: InOrder, form: Form { json: false, stats: false }, config: Config { segments: 1, docs: 1, terms: 8192 } }",
    ),
    (
        "run --docs 1 --overlap --segments=1",
        "Run { mode: Overlap, form: Form { json: false, stats: false }, config: Config { segments: 1, docs: 1, terms: 8192 } }",
    ),
    (
        "run --stats --terms 1024 --overlap",
        "Run { mode: Overlap, form: Form { json: false, stats: true }, config: Config { segments: 12, docs: 4096, terms: 1024 } }",
    ),
    (
        "run --docs=000000005 --stats",
        "Run { mode: InOrder, form: Form { json: false, stats: true }, config: Config { segments: 12, docs: 5, terms: 8192 } }",
    ),
    (
        "run --terms=1048576 --segments 1",
        "Run { mode: InOrder, form: Form { json: false, stats: false }, config: Config { segments: 1, docs: 4096, terms: 1048576 } }",
    ),
    (
        "run --workers 1",
        "Run { mode: Workers(1), form: Form { json: false, stats: false }, config: Config { segments: 12, docs: 4096, terms: 8192 } }",
    ),
    (
        "run --stats --segments=2 --workers=16 --docs 2 --terms 1024",
        "Run { mode: Workers(16), form: Form { json: false, stats: true }, config: Config { segments: 2, docs: 2, terms: 1024 } }",
    ),
    (
        "run --parts 1",
        "Run { mode: Parts(1), form: Form { json: false, stats: false }, config: Config { segments: 12, docs: 4096, terms: 8192 } }",
    ),
    (
        "run --parts=16 --stats --terms=1024 --docs 2 --segments=2",
        "Run { mode: Parts(16), form: Form { json: false, stats: true }, config: Config { segments: 2, docs: 2, terms: 1024 } }",
    ),
    (
        "run --parts 16 --docs 68264",
        "Run { mode: Parts(16), form: Form { json: false, stats: false }, config: Config { segments: 12, docs: 68264, terms: 8192 } }",
    ),
    (
        "run --parts 1 --overlap",
        "Run { mode: OverlapParts(1), form: Form { json: false, stats: false }, config: Config { segments: 12, docs: 4096, terms: 8192 } }",
    ),
    (
        "run --json --overlap --terms=1024 --parts=16 --docs 2 --segments=2",
        "Run { mode: OverlapParts(16), form: Form { json: true, stats: false }, config: Config { segments: 2, docs: 2, terms: 1024 } }",
    ),
    (
        "run --watch",
        "Run { mode: Watch, form: Form { json: false, stats: false }, config: Config { segments: 12, docs: 4096, terms: 8192 } }",
    ),
    (
        "run --docs 2 --watch --terms=1024 --stats --segments=2",
        "Run { mode: Watch, form: Form { json: false, stats: true }, config: Config { segments: 2, docs: 2, terms: 1024 } }",
    ),
    (
        "save",
        "Save { config: Config { segments: 12, docs: 4096, terms: 8192 } }",
    ),
    (
        "save --terms=1024 --docs 2 --segments=2",
        "Save { config: Config { segments: 2, docs: 2, terms: 1024 } }",
    ),
    ("load", "Load { form: Form { json: false, stats: false } }"),
    (
        "run --json",
        "Run { mode: InOrder, form: Form { json: true, stats: false }, config: Config { segments: 12, docs: 4096, terms: 8192 } }",
    ),
    (
        "run --json --watch --stats",
        "Run { mode: Watch, form: Form { json: true, stats: true }, config: Config { segments: 12, docs: 4096, terms: 8192 } }",
    ),
    (
        "load --json",
        "Load { form: Form { json: true, stats: false } }",
    ),
    (
        "load --stats",
        "Load { form: Form { json: false, stats: true } }",
    ),
    ("bench 0 1", "Bench { start: 0, docs: 1 }"),
    (
        "bench 18446744073709551615 40000",
        "Bench { start: 18446744073709551615, docs: 40000 }",
    ),
    ("bench 007 00001", "Bench { start: 7, docs: 1 }"),
];

const FEEDS: [(&str, &str); 12] = [
    (
        "--keep=2",
        "FeedCommand { keep: 2, way: InOrder, form: Form { json: false, stats: false }, config: Config { segments: 12, docs: 4096, terms: 8192 } }",
    ),
    (
        "--keep 000000016",
        "FeedCommand { keep: 16, way: InOrder, form: Form { json: false, stats: false }, config: Config { segments: 12, docs: 4096, terms: 8192 } }",
    ),
    (
        "--terms 1024 --keep 64 --segments=1",
        "FeedCommand { keep: 64, way: InOrder, form: Form { json: false, stats: false }, config: Config { segments: 1, docs: 4096, terms: 1024 } }",
    ),
    (
        "--segments=1 --terms=262144 --docs=13369341 --keep=3",
        "FeedCommand { keep: 3, way: InOrder, form: Form { json: false, stats: false }, config: Config { segments: 1, docs: 13369341, terms: 262144 } }",
    ),
    (
        "--json --keep=2",
        "FeedCommand { keep: 2, way: InOrder, form: Form { json: true, stats: false }, config: Config { segments: 12, docs: 4096, terms: 8192 } }",
    ),
    (
        "--keep=2 --watch",
        "FeedCommand { keep: 2, way: Watches, form: Form { json: false, stats: false }, config: Config { segments: 12, docs: 4096, terms: 8192 } }",
    ),
    (
        "--stats --json --keep=2 --watch",
        "FeedCommand { keep: 2, way: Watches, form: Form { json: true, stats: true }, config: Config { segments: 12, docs: 4096, terms: 8192 } }",
    ),
    (
        "--overlap --keep=2",
        "FeedCommand { keep: 2, way: Overlap, form: Form { json: false, stats: false }, config: Config { segments: 12, docs: 4096, terms: 8192 } }",
    ),
    (
        "--stats --overlap",
        "FeedCommand { keep: 4, way: Overlap, form: Form { json: false, stats: true }, config: Config { segments: 12, docs: 4096, terms: 8192 } }",
    ),
    (
        "--workers 1 --json",
        "FeedCommand { keep: 4, way: Workers(1), form: Form { json: true, stats: false }, config: Config { segments: 12, docs: 4096, terms: 8192 } }",
    ),
    (
        "--keep=2 --workers=16",
        "FeedCommand { keep: 2, way: Workers(16), form: Form { json: false, stats: false }, config: Config { segments: 12, docs: 4096, terms: 8192 } }",
    ),
    (
        "--docs=2 --segments 3 --terms=1024",
        "FeedCommand { keep: 4, way: InOrder, form: Form { json: false, stats: false }, config: Config { segments: 3, docs: 2, terms: 1024 } }",
    ),
];

const USUAL_FEED: &str =
    "FeedCommand { keep: 4, way: InOrder, form: Form { json: false, stats: false }, config: Config { segments: 12, docs: 4096, terms: 8192 } }";

#[test]
fn words_ask_for_a_command(rt: HostRuntime) -> Result<(), Fail> {
    let alloc = rt.alloc();
    for (line, want) in COMMANDS {
        let words = words_of(alloc, line)?;
        let Ok(request) = read_command(alloc, &words) else {
            return Err(Fail::new("the words ask for nothing"));
        };
        let text = format!(in alloc; "{:?}", request.command)?;
        assert_eq!(rt; text.as_str(), want, "{line}");
        assert!(rt; request.dialect.fields.is_none());
    }
    Ok(())
}

#[test]
fn words_ask_for_a_feed(rt: HostRuntime) -> Result<(), Fail> {
    let alloc = rt.alloc();
    for (line, want) in FEEDS {
        let words = words_of(alloc, line)?;
        let Ok(request) = read_feed_command(alloc, words.as_slice()) else {
            return Err(Fail::new("the words ask for nothing"));
        };
        let text = format!(in alloc; "{:?}", request.command)?;
        assert_eq!(rt; text.as_str(), want, "{line}");
        assert!(rt; request.dialect.fields.is_none());
    }
    let Ok(request) = read_feed_command(alloc, &[]) else {
        return Err(Fail::new("the words ask for nothing"));
    };
    assert_eq!(rt;
        format!(in alloc; "{:?}", request.command)?.as_str(),
        USUAL_FEED
    );
    Ok(())
}

// Words that say fields, compared with the words of the same command without them, and the names.
const FIELDS: [(&str, &str, &str); 8] = [
    ("run --fields from", "run", "from "),
    ("run --fields=from,room", "run", "from room "),
    ("run --fields from --overlap", "run --overlap", "from "),
    (
        "run --docs 5 --fields a,b_1,9 --json",
        "run --docs 5 --json",
        "a b_1 9 ",
    ),
    (
        "run --workers=2 --fields=from --stats",
        "run --workers=2 --stats",
        "from ",
    ),
    ("run --fields a,b,c,d,e,f,g,h", "run", "a b c d e f g h "),
    (
        "save --terms 1024 --fields from",
        "save --terms 1024",
        "from ",
    ),
    (
        "load --json --fields=from,room",
        "load --json",
        "from room ",
    ),
];

// The names of fields, each with a blank after it.
fn names_of(alloc: Global, fields: Fields<'_>) -> Result<String, Fail> {
    let mut text = String::new(alloc);
    let mut rest = fields;
    for _at in 0..MAX_NAMES {
        let Some((name, more)) = rest.split_first() else {
            break;
        };
        write!(text, "{name} ")?;
        rest = more;
    }
    Ok(text)
}

#[test]
fn words_say_fields(rt: HostRuntime) -> Result<(), Fail> {
    let alloc = rt.alloc();
    for (line, bare, want) in FIELDS {
        let words = words_of(alloc, line)?;
        let Ok(request) = read_command(alloc, &words) else {
            return Err(Fail::new("the words ask for nothing"));
        };
        assert_eq!(rt;
            names_of(alloc, request.dialect.fields)?.as_str(),
            want,
            "{line}"
        );
        let others = words_of(alloc, bare)?;
        let Ok(other) = read_command(alloc, &others) else {
            return Err(Fail::new("the words ask for nothing"));
        };
        assert!(rt; request.command == other.command, "{line}");
    }
    let words = words_of(alloc, "--keep 2 --fields from,room --json")?;
    let Ok(request) = read_feed_command(alloc, words.as_slice()) else {
        return Err(Fail::new("the words ask for nothing"));
    };
    assert_eq!(rt;
        names_of(alloc, request.dialect.fields)?.as_str(),
        "from room "
    );
    assert!(rt; request.command.keep == 2 && request.command.form.json);
    Ok(())
}

//! The words after the name of a command.
use eb_base::Config;
use eb_options::{Items, OptionFault, SETTING_OPTIONS, read_options, read_setting};
use std::alloc::{AllocError, Global};
use std::fmt::Write;
use std::process::Abort;
use std::test::Fail;

// A command with these flags and options; one of the names is a prefix of another.
const FLAGS: [&str; 2] = ["all", "fast"];

const OPTIONS: [&str; 3] = ["depth", "doc", "docs"];

// All names.
const NAMES: [&str; 5] = ["all", "fast", "depth", "doc", "docs"];

// The words of this line, with a bar between them.
fn words_of(alloc: Global, line: &str) -> Result<Vec<String>, AllocError> {
    let mut words = Vec::new(alloc);
    for word in line.split('|') {
        words.push(String::from_str(alloc, word)?)?;
    }
    Ok(words)
}

// The names that are there as flags, and those with a number, each with a blank after it.
fn text_of(alloc: Global, items: &Items) -> Result<String, Fail> {
    let mut text = String::new(alloc);
    for name in NAMES {
        if items.has(name) {
            write!(text, "{name} ")?;
        }
        if let Some(number) = items.number(name) {
            write!(text, "{name}={number} ")?;
        }
    }
    Ok(text)
}

// What is read from these words.
fn reading(alloc: Global, words: &[String]) -> Result<String, Fail> {
    match read_options(alloc, words, &FLAGS, &OPTIONS) {
        Ok(items) => text_of(alloc, &items),
        Err(OptionFault::Usage) => Ok(String::from_str(alloc, "usage")?),
        Err(OptionFault::NoMemory) => Ok(String::from_str(alloc, "no memory")?),
    }
}

// Asserts that the words of this line are read so.
fn read_as(rt: &impl Abort, alloc: Global, line: &str, want: &str) -> Result<(), Fail> {
    let words = words_of(alloc, line)?;
    let text = reading(alloc, words.as_slice())?;
    assert!(rt; text.as_str() == want, "{line}: {text}");
    Ok(())
}

// Words that are items.
const ITEMS: [(&str, &str); 8] = [
    ("--all", "all "),
    ("--fast|--all", "all fast "),
    ("--depth|5", "depth=5 "),
    ("--depth=5", "depth=5 "),
    ("--depth|000000005", "depth=5 "),
    ("--depth|999999999", "depth=999999999 "),
    ("--docs=2|--all|--doc|1", "all doc=1 docs=2 "),
    (
        "--doc=0|--fast|--docs=0|--all|--depth=0",
        "all fast depth=0 doc=0 docs=0 ",
    ),
];

#[test]
fn reads_items(rt: HostRuntime) -> Result<(), Fail> {
    for (line, want) in ITEMS {
        read_as(&rt, rt.alloc(), line, want)?;
    }
    assert!(rt; reading(rt.alloc(), &[])?.is_empty());
    Ok(())
}

// Others.
const NO_ITEMS: [&str; 43] = [
    "",
    "--all|",
    "--",
    "--all|--",
    "--depth|1|--",
    "--depth|--",
    "--all|--all",
    "--all|--depth=1|--all",
    "--depth|1|--depth|1",
    "--depth=1|--depth=2",
    "--depth",
    "--depth=",
    "--depth|",
    "--all|--depth",
    "--depth|--all",
    "--depth|--all|1",
    "--depth|--depth",
    "--depth|-",
    "--depth|-1",
    "--depth=5=6",
    "--depth|5=6",
    "--depth=1234567890",
    "--depth|+5",
    "--depth=0x5",
    "--depth=5|6",
    "--all=",
    "--all=1",
    "--al",
    "--dep|5",
    "--dep=5",
    "--docss=5",
    "---depth=5",
    "-all",
    "-depth|5",
    "all",
    "depth=5",
    "--=5",
    "--help",
    "-h",
    "help",
    "--version",
    "-V",
    "--ALL",
];

#[test]
fn refuses_other_words(rt: HostRuntime) -> Result<(), Fail> {
    for line in NO_ITEMS {
        read_as(&rt, rt.alloc(), line, "usage")?;
    }
    Ok(())
}

// The setting that these words ask for; none where they are no items, or no setting that is
// allowed.
fn setting_of(alloc: Global, words: &[String]) -> Option<Config> {
    match read_options(alloc, words, &[], &SETTING_OPTIONS) {
        Ok(items) => read_setting(&items),
        Err(_) => None,
    }
}

// Words, and the segments, documents and terms that they ask for.
const SETTINGS: [(&str, u32, u32, u32); 2] = [
    ("--segments=3", 3, 4096, 8192),
    ("--terms|1024|--docs|1|--segments|64", 64, 1, 1024),
];

#[test]
fn reads_settings(rt: HostRuntime) -> Result<(), Fail> {
    for (line, segments, docs, terms) in SETTINGS {
        let words = words_of(rt.alloc(), line)?;
        let setting = setting_of(rt.alloc(), words.as_slice());
        assert!(rt;
            setting == Some(Config::new(segments, docs, terms)?),
            "{line}"
        );
    }
    assert!(rt; setting_of(rt.alloc(), &[]) == Some(Config::usual()));
    Ok(())
}

// Items that ask for no setting that is allowed.
const NO_SETTINGS: [&str; 3] = [
    "--segments=0",
    "--terms=300",
    "--segments=64|--docs=16777216",
];

#[test]
fn refuses_other_settings(rt: HostRuntime) -> Result<(), Fail> {
    for line in NO_SETTINGS {
        let words = words_of(rt.alloc(), line)?;
        let Ok(items) = read_options(rt.alloc(), words.as_slice(), &[], &SETTING_OPTIONS) else {
            return Err(Fail::new("no items"));
        };
        assert!(rt; read_setting(&items) == None, "{line}");
    }
    Ok(())
}

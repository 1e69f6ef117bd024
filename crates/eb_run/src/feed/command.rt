ghost use Rattle.std.specs.Prelude.{◌≡◌, ◌≤◌, Some, None, IfSome, IfOk, IsErrOf, map, string_bytes};
ghost use Rattle.eb_options.specs.Items.{items_of};
ghost use Rattle.eb_run.specs.FeedCommand.{feed_asked_of, feed_command_of, feed_flags, feed_of, feed_options, feed_with, way_by, way_with};
ghost use Rattle.eb_run.specs.FeedCommand.{HasFewWorkers};
ghost use Rattle.eb_run.specs.FeedRequests.{feed_request_view, feed_counting_view};

use crate::command::CommandFault;
use crate::command::form::read_form;
use crate::command::mode::are_few;
use crate::fields::take_dialect;
use eb_base::{Config, MAX_WORDS};
use eb_fields::Dialect;
use eb_lines::Form;
use eb_options::{Items, OptionFault, read_options, read_setting};
use std::alloc::Global;

// The flags of a feed, and its options: how many workers it has, how many generations it keeps, and
// those of their setting.
const FEED_FLAGS: [&str; 5] = ["overlap", "watch", "json", "stats", "counts"];

const FEED_OPTIONS: [&str; 5] = ["workers", "keep", "segments", "docs", "terms"];

// Its options with a value; first those that say how lines are read.
const FEED_VALUES: [&str; 9] = [
    "fields", "words", "id", "text", "workers", "keep", "segments", "docs", "terms",
];

/// How the lines of a feed are processed.
#[derive(Clone, Copy, Debug, PartialEq, Eq)]
pub enum FeedWay {
    /// One after the other.
    InOrder,
    /// One after the other, of which some set watches (`--watch`).
    Watches,
    /// Several threads read the lines, which are then processed one after the other (`--overlap`).
    Overlap,
    /// One after the other, while this many standing workers, 1 to 16, answer the queries
    /// (`--workers`).
    Workers(u32),
}

/// What the words after `feed` ask for.
#[derive(Clone, Copy, Debug, PartialEq, Eq)]
pub struct FeedCommand {
    /// How many generations are kept, 2 to 64 (`--keep`).
    pub keep: u32,
    /// How its lines are processed.
    pub way: FeedWay,
    /// How the output is written (`--json`), and whether the generations are printed after the
    /// summary (`--stats`).
    pub form: Form,
    /// The setting of each; what the options don't name is as in `Config::usual`.
    pub config: Config,
}

/// What the words after `feed` ask for, and how its lines are read.
#[derive(Clone, Copy, Debug)]
pub struct FeedRequest<'a> {
    /// The feed.
    pub command: FeedCommand,
    /// How its lines are read (`--fields`, `--words`, `--id`, `--text` and `--counts`).
    pub dialect: Dialect<'a>,
}

/// The feed that the words ask for; they are without the program's name and the word `feed`.
///
/// They are items in any order, each at most once: `--overlap`, `--watch`, `--json`, `--stats`,
/// `--counts`, and for x of `workers`, `keep`, `segments`, `docs` and `terms` the two words `--x V`
/// or the one word `--x=V`; and `--fields`, `--words`, `--id` and `--text` as after `run`. V is one
/// to nine digits, leading zeros allowed; what isn't named is 4 generations, and else as in
/// `Config::usual`. There is at most one of `--overlap`, `--watch` and `--workers`, and no
/// `--stats` with `--workers`, of which there are 1 to 16. `Config::new` has to allow the setting,
/// and keep is 2 to 64; keep + 1 indexes have at most 134,217,728 words together.
///
/// Usage comes exactly where the words are none of these; NoMemory is free.
pub fn read_feed_command<'a>(
    alloc: Global,
    words: &'a [String],
) -> Result<FeedRequest<'a>, CommandFault>
    ensures request { IfOk result (λ request. feed_asked_of (map string_bytes words.entry.now) ≡ Some (feed_request_view request)) }
    ensures keep { IfOk result (λ request. (2 ≤ request.command.keep) × (request.command.keep ≤ 64)) }
    ensures workers { IfOk result (λ request. HasFewWorkers request.command.way) }
    ensures usage { IsErrOf result CommandFault.Usage → feed_asked_of (map string_bytes words.entry.now) ≡ None }
{
    match take_dialect(alloc, words, &FEED_VALUES) {
        Ok(apart) => match read_command(alloc, apart.others.as_slice()) {
            Ok(FeedCounting { counts, command }) => Ok(FeedRequest {
                command,
                dialect: Dialect {
                    counts,
                    ..apart.dialect
                },
            }),
            Err(fault) => Err(fault),
        },
        Err(fault) => Err(fault),
    }
}

// The feed that the words ask for, without how its lines are read.
fn read_command(alloc: Global, words: &[String]) -> Result<FeedCounting, CommandFault>
    ensures command { IfOk result (λ c. feed_command_of (map string_bytes words.now) ≡ Some (feed_counting_view c)) }
    ensures keep { IfOk result (λ c. (2 ≤ c.command.keep) × (c.command.keep ≤ 64)) }
    ensures workers { IfOk result (λ c. HasFewWorkers c.command.way) }
    ensures usage { IsErrOf result CommandFault.Usage → feed_command_of (map string_bytes words.now) ≡ None }
{
    let items = read_items(alloc, words)?;
    let Some(command) = read_feed(&items) else {
        return Err(CommandFault::Usage);
    };
    Ok(FeedCounting {
        counts: items.has("counts"),
        command,
    })
}

// A feed, and whether its lines may ask for counts (`--counts`).
#[derive(Clone, Copy)]
struct FeedCounting {
    counts: bool,
    command: FeedCommand,
}

// The items of the words, without those that say how lines are read.
fn read_items(alloc: Global, words: &[String]) -> Result<Items, CommandFault>
    ensures items { IfOk result (λ items. items_of feed_flags feed_options (map string_bytes words.now) ≡ Some items) }
    ensures usage { IsErrOf result CommandFault.Usage → items_of feed_flags feed_options (map string_bytes words.now) ≡ None }
{
    match read_options(alloc, words, &FEED_FLAGS, &FEED_OPTIONS) {
        Ok(items) => Ok(items),
        Err(OptionFault::Usage) => Err(CommandFault::Usage),
        Err(OptionFault::NoMemory) => Err(CommandFault::NoMemory),
    }
}

// The way to process lines, where at most one is asked for.
fn way_of(overlap: bool, watch: bool, workers: Option<u32>, stats: bool) -> Option<FeedWay>
    ensures way { result ≡ way_by overlap watch workers stats }
    ensures workers { IfSome result HasFewWorkers }
{
    match workers {
        None if !watch && !overlap => Some(FeedWay::InOrder),
        None if !overlap => Some(FeedWay::Watches),
        None if !watch => Some(FeedWay::Overlap),
        Some(workers) if !overlap && !watch && !stats => work_with(workers),
        _ => None,
    }
}

// The way with this many workers, if that is allowed.
fn work_with(workers: u32) -> Option<FeedWay>
    ensures way { result ≡ way_with workers }
    ensures workers { IfSome result HasFewWorkers }
{
    if !are_few(workers) {
        return None;
    }
    Some(FeedWay::Workers(workers))
}

// The feed that the items ask for, if it is allowed.
fn read_feed(items: &Items) -> Option<FeedCommand>
    ensures feed { result ≡ feed_with items.now }
    ensures keep { IfSome result (λ command. (2 ≤ command.keep) × (command.keep ≤ 64)) }
    ensures workers { IfSome result (λ command. HasFewWorkers command.way) }
{
    let keep = items.number("keep").unwrap_or(4);
    let form = read_form(items);
    let way = way_of(
        items.has("overlap"),
        items.has("watch"),
        items.number("workers"),
        items.has("stats"),
    )?;
    allow(keep, way, form, read_setting(items)?)
}

// The feed that keeps this many generations of this setting, if it is allowed.
fn allow(keep: u32, way: FeedWay, form: Form, config: Config) -> Option<FeedCommand>
    ensures feed { result ≡ feed_of keep form way config }
    ensures keep { IfSome result (λ command. (2 ≤ command.keep) × (command.keep ≤ 64)) }
    ensures way { IfSome result (λ command. command.way ≡ way) }
{
    if keep < 2 || keep > 64 {
        return None;
    }
    if (u64::from(keep) + 1) * config.words() > MAX_WORDS {
        return None;
    }
    Some(FeedCommand {
        keep,
        way,
        form,
        config,
    })
}

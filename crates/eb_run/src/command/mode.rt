ghost use Rattle.std.specs.Prelude.{◌≡◌, ◌≤◌, IfSome, IsTrue};
ghost use Rattle.eb_run.specs.Command.{is_few, mode_by, over_parts, with_workers, HasFew};

use eb_base::{Config, MAX_WORDS};

// The most workers and the most parts of a run.
const MOST: u32 = 16;

/// How the lines of a run are processed.
#[derive(Clone, Copy, Debug, PartialEq, Eq)]
pub enum Mode {
    /// One after the other.
    InOrder,
    /// Documents are added while queries are answered (`--overlap`).
    Overlap,
    /// One after the other, while this many workers, 1 to 16, answer the queries; they live for the
    /// whole run (`--workers`).
    Workers(u32),
    /// One after the other, with this many indexes, 1 to 16, to which documents go by their ids
    /// (`--parts`).
    Parts(u32),
    /// With this many indexes, 1 to 16, as of `Parts`: lines are read concurrently, and the parts
    /// add concurrently (`--parts` beside `--overlap`).
    OverlapParts(u32),
    /// One after the other, of which some set and remove watches (`--watch`).
    Watch,
}

// The mode that is asked for, where at most one is; `--overlap` may stand beside `--parts`.
pub(super) fn mode_of(
    overlap: bool,
    watch: bool,
    workers: Option<u32>,
    parts: Option<u32>,
    config: Config,
) -> Option<Mode>
    ensures mode { result ≡ mode_by overlap watch workers parts config }
    ensures few { IfSome result HasFew }
{
    match (workers, parts) {
        (None, None) if !watch && !overlap => Some(Mode::InOrder),
        (None, None) if !watch => Some(Mode::Overlap),
        (None, None) if !overlap => Some(Mode::Watch),
        (Some(workers), None) if !overlap && !watch => work_with(workers),
        (None, Some(parts)) if !watch => go_over(parts, overlap, config),
        _ => None,
    }
}

// Whether there may be this many workers or parts.
pub(crate) fn are_few(n: u32) -> bool
    ensures few { result ≡ is_few n }
    ensures range { IsTrue result → (1 ≤ n) × (n ≤ 16) }
{
    1 <= n && n <= MOST
}

// The mode with this many workers, if that is allowed.
fn work_with(workers: u32) -> Option<Mode>
    ensures mode { result ≡ with_workers workers }
    ensures few { IfSome result HasFew }
{
    if !are_few(workers) {
        return None;
    }
    Some(Mode::Workers(workers))
}

// The mode over this many parts of this setting, if that is allowed.
fn go_over(parts: u32, overlap: bool, config: Config) -> Option<Mode>
    ensures mode { result ≡ over_parts parts overlap config }
    ensures few { IfSome result HasFew }
{
    if !are_few(parts) || u64::from(parts) * config.words() > MAX_WORDS {
        return None;
    }
    if overlap {
        Some(Mode::OverlapParts(parts))
    } else {
        Some(Mode::Parts(parts))
    }
}

ghost use Rattle.std.specs.Prelude.{◌≡◌};
ghost use Rattle.eb_options.specs.Settings.{allowed, setting_of};

use crate::items::Items;
use eb_base::Config;

/// The options of a setting: its segments, and the documents and terms that each of them has room
/// for.
pub const SETTING_OPTIONS: [&str; 3] = ["segments", "docs", "terms"];

// The setting with these numbers, if it is allowed.
fn config_of(segments: u32, docs: u32, terms: u32) -> Option<Config>
    ensures { result ≡ allowed segments docs terms }
{
    match Config::new(segments, docs, terms) {
        Ok(config) => Some(config),
        Err(_) => None,
    }
}

/// The setting that the items ask for by `segments`, `docs` and `terms`, if `Config::new` allows
/// it; what they don't name is as in `Config::usual`.
pub fn read_setting(items: &Items) -> Option<Config>
    ensures { result ≡ setting_of items.now }
{
    let segments = items.number("segments").unwrap_or(12);
    let docs = items.number("docs").unwrap_or(4096);
    let terms = items.number("terms").unwrap_or(8192);
    config_of(segments, docs, terms)
}

//! Searches and counts for callers that don't ask how many loads they make. A counter of loads
//! belongs to a ledger that only a function with a type parameter for it can open, so each call here
//! stands before such a function.
ghost use Rattle.std.specs.Prelude.{◌≡◌, ◌<◌, ℕ, List, length};
ghost use Rattle.eb_base.specs.Document.{Doc};
ghost use Rattle.eb_base.specs.Setting.{Setting};
ghost use Rattle.eb_base.specs.Match.{answer};
ghost use Rattle.eb_count.specs.Tallies.{HasCounted};
ghost use Rattle.eb_cursor.specs.Frames.{query_of, k_of, ids_of, SeenAs};
ghost use Rattle.eb_feed.specs.Generations.{kept};
ghost use Rattle.eb_feed.specs.Held.{IsFedWith};

use crate::feed::Feed;
use eb_base::Gate;
use eb_count::Tally;
use eb_cursor::Frame;
use eb_place::Steps;
use std::marker::Brand;
use std::sync::ledger::{Blank, Ledger};

// Searches with a counter of the ledger that the blank names.
fn search_by<G: Gate, L: Ledger>(feed: &mut Feed, frame: &mut Frame, gate: &G, blank: Blank) -> u64
    requires blank { (blank.name ≡ L.name) × (blank.parts ≡ L.parts) × (0 < blank.parts) }
    requires fed { (σ : Setting) × (keep : ℕ) × (history : List Doc) × IsFedWith feed.old σ keep history }
    ensures taken { (σ : Setting) (keep : ℕ) (history : List Doc) → IsFedWith feed.old σ keep history → IsFedWith feed.new σ keep history }
    ensures query { query_of frame.new ≡ query_of frame.old }
    ensures k { k_of frame.new ≡ k_of frame.old }
    ensures seen { (σ : Setting) (keep : ℕ) (history : List Doc) → IsFedWith feed.old σ keep history → result ≡ length history }
    ensures answer { (σ : Setting) (keep : ℕ) (history : List Doc) → IsFedWith feed.old σ keep history
        → ids_of frame.new ≡ answer (query_of frame.old) (k_of frame.old) (kept σ keep history) }
{
    let mut steps = Steps::<L>::new(blank);
    feed.search(frame, gate, &mut steps)
}

// Counts with a counter of the ledger that the blank names.
fn count_by<G: Gate, L: Ledger>(
    feed: &mut Feed,
    frame: &mut Frame,
    tally: &mut Tally,
    gate: &G,
    blank: Blank,
) -> u64
    requires blank { (blank.name ≡ L.name) × (blank.parts ≡ L.parts) × (0 < blank.parts) }
    requires fed { (σ : Setting) × (keep : ℕ) × (history : List Doc) × IsFedWith feed.old σ keep history }
    ensures taken { (σ : Setting) (keep : ℕ) (history : List Doc) → IsFedWith feed.old σ keep history → IsFedWith feed.new σ keep history }
    ensures frame { SeenAs frame.old frame.new }
    ensures seen { (σ : Setting) (keep : ℕ) (history : List Doc) → IsFedWith feed.old σ keep history → result ≡ length history }
    ensures counts { (σ : Setting) (keep : ℕ) (history : List Doc) → IsFedWith feed.old σ keep history
        → HasCounted (query_of frame.old) (kept σ keep history) tally.old tally.new }
{
    let mut steps = Steps::<L>::new(blank);
    feed.count(frame, tally, gate, &mut steps)
}

impl Feed {
    /// Searches as [`Feed::search`], and doesn't say how many loads it
    /// makes. Takes no memory.
    pub fn search_unmetered<G: Gate>(&mut self, frame: &mut Frame, gate: &G) -> u64
        requires { (σ : Setting) × (keep : ℕ) × (history : List Doc) × IsFedWith self.old σ keep history }
        ensures taken { (σ : Setting) (keep : ℕ) (history : List Doc) → IsFedWith self.old σ keep history → IsFedWith self.new σ keep history }
        ensures query { query_of frame.new ≡ query_of frame.old }
        ensures k { k_of frame.new ≡ k_of frame.old }
        ensures seen { (σ : Setting) (keep : ℕ) (history : List Doc) → IsFedWith self.old σ keep history → result ≡ length history }
        ensures answer { (σ : Setting) (keep : ℕ) (history : List Doc) → IsFedWith self.old σ keep history
            → ids_of frame.new ≡ answer (query_of frame.old) (k_of frame.old) (kept σ keep history) }
    {
        search_by::<G, Brand>(self, frame, gate, Blank::new(1))
    }

    /// Counts as [`Feed::count`], and doesn't say how many loads it
    /// makes. Takes no memory.
    pub fn count_unmetered<G: Gate>(
        &mut self,
        frame: &mut Frame,
        tally: &mut Tally,
        gate: &G,
    ) -> u64
        requires { (σ : Setting) × (keep : ℕ) × (history : List Doc) × IsFedWith self.old σ keep history }
        ensures taken { (σ : Setting) (keep : ℕ) (history : List Doc) → IsFedWith self.old σ keep history → IsFedWith self.new σ keep history }
        ensures frame { SeenAs frame.old frame.new }
        ensures seen { (σ : Setting) (keep : ℕ) (history : List Doc) → IsFedWith self.old σ keep history → result ≡ length history }
        ensures counts { (σ : Setting) (keep : ℕ) (history : List Doc) → IsFedWith self.old σ keep history
            → HasCounted (query_of frame.old) (kept σ keep history) tally.old tally.new }
    {
        count_by::<G, Brand>(self, frame, tally, gate, Blank::new(1))
    }
}

//! A feed with standing workers: lines are read in order, and their queries are answered beside the one writer by workers
//! that live for the whole run. Each answer is printed in its line's place. The run is `run_with_workers`'; here stands its office,
//! which is of a feed. `specs/FeedRules.antt` says by which rules it goes.
#![tactic(auto)]

mod feed_office;
mod laws;
mod plan;
mod run;

pub use laws::none_is_full;
pub use plan::FeedPlan;
pub use run::run_feed_workers;

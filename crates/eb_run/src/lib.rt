//! The commands of the program: what the words of a command line ask for, and the runs over a
//! source and a sink.
//!
//! [`run`] reads the commands `run`, `bench`, `save` and `load`, and [`run_feed`] the words after
//! `feed`. `specs/Ran.antt` says what `run` leaves, by the command, and `specs/FeedOutput.antt`
//! what a feed prints.
#![tactic(auto)]

mod bench;
mod command;
mod dispatch;
mod feed;
mod fields;
mod figures;
mod last_line;
mod laws;
mod program;
mod running;
mod usage;

pub use command::{Command, CommandFault, Mode, Request, read_command};
pub use dispatch::run;
pub use feed::{FeedCommand, FeedRequest, FeedWay, read_feed_command, run_feed};
pub use laws::{
    feed_never_full, feed_one_text, feed_order_text, feed_some_text, one_text, order_text,
    some_text,
};
pub use usage::{FEED_USAGE, USAGE};

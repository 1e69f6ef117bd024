//! Command-line options after the name of a command: flags and options with numbers, in any order,
//! each at most once. A flag is the one word `--x`; an option is the two words `--x V` or the one
//! word `--x=V`, where V is one to nine digits. The command says which flags and options it has.
//! The setting of an index has three options, which `read_setting` knows.
#![tactic(auto)]

mod items;
mod matches;
mod number;
mod setting;
mod split;
mod text;

pub use items::{Items, OptionFault, read_options};
pub use number::{read_nine, read_number};
pub use setting::{SETTING_OPTIONS, read_setting};
pub use text::{TextApart, take_text};

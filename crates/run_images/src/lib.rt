//! The programs `save` and `load` over the lines of an input: `save` writes the image of the
//! documents that the lines add, and `load` reads one and processes the lines after it.
//! `specs/Saved.antt` and `specs/Loaded.antt` say what they write.
#![tactic(auto)]

mod image;
mod load;
mod save;
mod saving;

pub use load::load_lines;
pub use save::save_lines;

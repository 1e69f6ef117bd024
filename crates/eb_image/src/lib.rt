//! Document images: the bytes that keep a setting and documents, to be written and read part by
//! part. `specs/Image.antt` says what an image is.
#![tactic(auto)]

mod fault;
mod fill;
mod first;
mod head;
mod law;
mod part;
mod reader;
mod scan;

pub use fault::{HeadFault, ImageFault};
pub use first::{FirstHead, FirstPart, first_head, first_part};
pub use head::{read_head, write_head};
pub use law::images_differ;
pub use part::write_part;
pub use reader::ImageReader;

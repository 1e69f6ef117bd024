//! Partitions and blending: a document goes to one of several indexes by its id, and a search asks
//! each of them and blends their answers. What many machines would do, each with a part, is here in
//! one program, with its law.
#![tactic(auto)]

mod adding;
mod blend;
mod catching_up;
mod converter;
mod frame;
mod laws;
mod order;
mod reader;
mod refusal;
mod searching;
mod writer;

pub use blend::Blend;
pub use converter::BlendConverter;
pub use frame::BlendFrame;
pub use laws::blend_is_answer;
pub use reader::BlendReader;
pub use refusal::BlendRefusal;
pub use writer::BlendWriter;

//! Writing: the serializer, the events that it was sent, and where in the value it is.

mod frame;
mod frames;
mod halt;
mod laws;
mod log;
mod logging;
mod position;
mod serializer;
mod text;

pub use halt::Halt;
pub use laws::{events_of_data, texts_without_floats, worked_texts};
pub use text::{Settings, TextSerializer};

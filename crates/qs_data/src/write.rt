//! Writing: a serializer, the sink that it writes to, the walk over data, and a writer for types that write themselves.

mod entry;
mod scalar;
mod serializer;
mod sink;
mod sink_with_error;
mod stop;
mod text;
mod walk;
mod writer;

pub(crate) use scalar::Room;
pub use scalar::Scalar;
pub use serializer::Serializer;
pub use sink::{ByWrite, Sink};
pub use stop::{Stop, WriteResult};
pub use writer::Writer;

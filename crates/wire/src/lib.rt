// Frames: what goes over the line, read from octets and written to them.
// `read` gives the frame in a run of octets, or the first fault; `write` puts a frame at the start of a buffer.
#![tactic(auto)]

// Faults of reading and refusals to write, with number, place and layer.
mod fault;

pub use fault::{FaultCode, FrameFault, Layer, WriteFault};

// The eleven types of Meta-AMS frame.
mod meta_type;

pub use meta_type::MetaType;

// Their names in plain words.
mod names;

// The header of a Meta-AMS frame.
mod header;

pub use header::Header;

// A Meta-AMS frame whose header was read.
mod meta_frame;

// The frame, by type.
mod frame;

pub use frame::{ContentRun, Frame, RuleChange};

// Where the parts of a frame stand.
mod layout;

pub use layout::{FIRST_OF_MESSAGES, LONGEST};

// Octets and words put to the start of a buffer.
mod octets;

// Octets to a frame.
mod reader;

pub use reader::read;

// A frame to octets.
mod writer;

pub use writer::write;

// The laws of frames.
mod laws;

pub use laws::{frame_laws, worked_examples};

// Captured frames in plain words: a line of hex to a line that says what the octets are.
#![tactic(auto)]

// Octets as hexadecimal text.
mod hex;

pub use hex::{from_hex, to_hex};

// What is said of a frame or of a fault.
mod text;

pub use text::explain;

// A line of a dump.
mod line;

pub use line::{answer_line, line_end};

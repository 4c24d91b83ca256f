// A line between ports: what it means, and what is proved of every line.
#![tactic(auto)]

// The line.
mod line;

pub use line::{LONGEST_FRAME, Line, PORTS, in_range};

// A line that can lose a frame.
mod faulty;

pub use faulty::FaultyLine;

// The oldest frame of a port is taken.
mod taking;

pub use taking::take_oldest;

// One frame for several ports.
mod offering;

pub use offering::{offer, offer_all};

// The laws of lines.
mod laws;

pub use laws::{fitting_laws, looking_law, offering_laws};

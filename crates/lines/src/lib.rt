// Two lines: one with 4 places a port, and one with 4,096 octets a port.
#![tactic(auto)]

// How much waits at a port.
mod sizes;

// The frames of one port.
mod queue;

// The rule by which a new frame fits.
mod fitting;

// The line over a rule.
mod port_line;

pub use port_line::PortLine;

// The line with 4,096 octets a port.
mod packed;

pub use packed::{Packed, PackedLine};

// The line with 4 places a port.
mod slot;

pub use slot::{SlotLine, Slots};

// Worked examples of the fitting rules.
mod laws;

pub use laws::worked_examples;

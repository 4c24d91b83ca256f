// How much waits at a port.

// The octets that a port has room for.
pub(crate) const PORT_OCTETS: usize = 4_096;

// The octets that a waiting frame takes beside its own, on the packed line.
pub(crate) const OVERHEAD: usize = 2;

// The frames that a port has room for: each takes 3 octets or more of the packed line.
pub(crate) const MOST_FRAMES: usize = PORT_OCTETS / (OVERHEAD + 1);

// The frames that a port of the slot line has room for.
pub(crate) const SLOTS: usize = 4;

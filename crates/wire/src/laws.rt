// The laws of frames; each function's contract is a theorem.
ghost use Rattle.wire.specs.Laws.{Examples, ReadCarried, ReadWritten, WrittenRead};

// Reading what was written gives the same record; writing what was read gives the same octets.
pub fn frame_laws()
    ensures forth { ReadWritten }
    ensures back { WrittenRead }
    ensures carries { ReadCarried }
{}

// A Module ID, a registration and a published message, and three starts that are no frame.
pub fn worked_examples()
    ensures { Examples }
{}

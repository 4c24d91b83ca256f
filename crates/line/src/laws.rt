// The laws of lines; each function's contract is a theorem.
ghost use Rattle.std.specs.Prelude.{ℕ, List};
ghost use Rattle.line.specs.Laws.{Fair, Seen, Served};

use crate::line::Line;

// An empty port takes every frame, a shorter frame fits where a longer one does, and with a frame gone what fitted
// still fits.
pub fn fitting_laws<L: Line>(line: &L)
    ensures { Fair (L.fitting line.now) (L.waiting line.now) }
{}

// A buffer with room for the longest frame finds one exactly where one waits.
pub fn looking_law<L: Line>(line: &L)
    ensures { Seen (L.waiting line.now) }
{}

// A frame offered to several ports waits at those where it fits, the mask has the others, and no other port changes.
pub fn offering_laws<L: Line>(line: &L)
    ensures { (ports frame : List ℕ) → Served (L.fitting line.now) (L.waiting line.now) ports frame }
{}

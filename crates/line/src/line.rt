// The line: frames wait at its ports, oldest first, and a rule says whether a new one fits beside them.
ghost use Rattle.std.specs.Prelude.{◌≡◌, ℕ, ◌≤◌, [], length, IfOk, if◌then◌else◌};
ghost use Rattle.line.specs.Lines.{Lawful, Rule, Sized, Waiting, added, admits, copied, in_range, looked, port_count, without};

use std::alloc::{AllocError, Global};

// The ports are 0 to 15.
pub const PORTS: usize = 16;

// A frame has 1 to 1,012 octets. This crate rests on no other, so it has the number by itself.
pub const LONGEST_FRAME: usize = 1_012;

// Whether this is a port of a line, and this the length of a frame.
pub fn in_range(port: usize, length: usize) -> bool
    ensures { result ≡ in_range port length }
{
    port < PORTS && (1..=LONGEST_FRAME).contains(&length)
}

pub trait Line: Sized {
    // At each port the waiting frames, oldest first.
    ghost waiting: { Self → Waiting };

    // The same rule at every port. No call changes it; each says so, since a line may choose its rule when it is made.
    ghost fitting: { Self → Rule };

    // A line with nothing waiting.
    fn empty(heap: Global) -> Result<Self, AllocError>
        ensures { IfOk result (λ l. (p : ℕ) → waiting l p ≡ []) };

    // Whether a frame of this length fits at the port.
    fn fits(&self, port: usize, length: usize) -> bool
        ensures { result ≡ admits (fitting self.now) (waiting self.now) port length };

    // The frame waits last at the port, if it fits there; the answer is whether it does.
    fn put(&mut self, port: usize, frame: &[u8]) -> bool
        ensures answer { result ≡ admits (fitting self.old) (waiting self.old) port (length frame.now) }
        ensures queued { waiting self.new ≡ (if result then added (waiting self.old) port frame.now else waiting self.old) }
        ensures rule { fitting self.new ≡ fitting self.old };

    // The oldest frame of the port is copied to the buffer's start; the answer is its length. None where nothing waits
    // or the buffer is too short.
    fn look(&self, port: usize, buffer: &mut [u8]) -> Option<usize>
        ensures answer { result ≡ looked (waiting self.now port) (length buffer.old) }
        ensures copy { buffer.new ≡ copied (waiting self.now port) buffer.old };

    // The oldest frame of the port goes, if one waits.
    fn remove(&mut self, port: usize)
        ensures queued { waiting self.new ≡ without (waiting self.old) port 0 }
        ensures rule { fitting self.new ≡ fitting self.old };

    // An empty port fits every length, a length below a fitting one fits, and with any waiting frame taken out, what
    // fitted still fits.
    ghost lawful: { (l : Self) → Lawful (fitting l) };

    // Every waiting frame has 1 to 1,012 octets.
    ghost sized: { (l : Self) (p : ℕ) → Sized (waiting l p) };

    // Another port counts as empty.
    ghost outside: { (l : Self) (p : ℕ) → port_count ≤ p → waiting l p ≡ [] };
}

// A line that can lose a frame.
ghost use Rattle.std.specs.Prelude.{◌≡◌};
ghost use Rattle.line.specs.Lines.{after_lose, first_of};

use crate::line::Line;

pub trait FaultyLine: Line {
    // The k-th waiting frame of the port goes, 1 the oldest; the answer is its first octet. None where there is no
    // such frame.
    fn lose(&mut self, port: usize, k: usize) -> Option<u8>
        ensures answer { result ≡ first_of (Self.Line.waiting self.old port) k }
        ensures queued { Self.Line.waiting self.new ≡ after_lose (Self.Line.waiting self.old) port k }
        ensures rule { Self.Line.fitting self.new ≡ Self.Line.fitting self.old };
}

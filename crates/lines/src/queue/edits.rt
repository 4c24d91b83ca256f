// Frames enter a queue and leave it.
ghost use Rattle.std.specs.Prelude.{◌≡◌, ◌<◌, ◌≤◌, true, [], ◌∷◌, ◌++◌, map, length, vec_items, vec_len, vec_capacity};
ghost use Rattle.line.specs.Lines.{longest_frame};
ghost use Rattle.lines.specs.Queues.{frames};
ghost use Rattle.lines.specs.Rules.{packed};
ghost use Rattle.std.specs.List.{remove, remove_range};

use crate::queue::Queue;
use std::ops::Range;

impl Queue {
    // The frame waits last.
    pub(crate) fn push(&mut self, frame: &[u8])
        requires some { 0 < length frame.now }
        requires short { length frame.now ≤ longest_frame }
        requires room { packed (map length (frames self.old)) (length frame.now) ≡ true }
        ensures { frames self.new ≡ frames self.old ++ frame.now ∷ [] }
    {
        // At most 1,012, so a checked conversion would have an error that cannot be.
        let n = frame.len() as u16;
        // There is room for both, so neither fails.
        self.lengths.push_reserved(n);
        let _ = self.octets.extend_from_slice(frame);
    }

    // The frame at place i goes, if there is one.
    pub(crate) fn remove_at(&mut self, i: usize)
        ensures { frames self.new ≡ remove (frames self.old) i }
    {
        let Some(span) = self.span(i) else {
            return;
        };
        self.lengths.remove(i);
        close_up(&mut self.octets, span);
    }
}

// The octets of a piece go, and those behind it move down. `drain` moves the piece, too: a frame of 1,012 octets alone at
// its port takes twice as long by it, and one of 26 before three others thrice.
fn close_up(octets: &mut Vec<u8>, piece: Range<usize>)
    requires { (piece.start ≤ piece.end) × (piece.end ≤ vec_len octets.old) }
    ensures items { vec_items octets.new ≡ remove_range (vec_items octets.old) piece.start piece.end }
    ensures capacity { vec_capacity octets.new ≡ vec_capacity octets.old }
{
    let left = octets.len() - (piece.end - piece.start);
    octets.copy_within(piece.end.., piece.start);
    octets.truncate(left);
}

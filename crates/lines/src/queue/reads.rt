// A queue is made, and asked.
ghost use Rattle.std.specs.Prelude.{◌≡◌, ◌+◌, ◌<◌, ◌≤◌, [], map, take, length, slice_index, vec_len, IfOk, IfSome, IsSome, ◌↔◌};
ghost use Rattle.std.specs.List.{sum};
ghost use Rattle.line.specs.Lines.{copied, first_of, looked};
ghost use Rattle.lines.specs.Cuts.{IsPiece};
ghost use Rattle.lines.specs.Queues.{frames};
ghost use Rattle.lines.specs.Rules.{taken_up};
ghost use Rattle.lines.specs.Sizes.{port_octets};

use crate::queue::Queue;
use crate::sizes::{MOST_FRAMES, OVERHEAD, PORT_OCTETS};
use std::alloc::{AllocError, Global};
use std::ops::Range;

impl Queue {
    pub(crate) fn new(heap: Global) -> Result<Queue, AllocError>
        ensures { IfOk result (λ q. frames q ≡ []) }
    {
        let lengths = Vec::with_capacity(heap, MOST_FRAMES)?;
        let octets = Vec::with_capacity(heap, PORT_OCTETS)?;
        Ok(Queue { lengths, octets })
    }

    // How many frames wait.
    pub(crate) fn count(&self) -> usize
        ensures { result ≡ length (map length (frames self.now)) }
    {
        self.lengths.len()
    }

    // How many octets they take on the packed line.
    pub(crate) fn taken_up(&self) -> usize
        ensures value { result ≡ taken_up (map length (frames self.now)) }
        ensures bound { result ≤ port_octets }
    {
        self.octets.len() + OVERHEAD * self.lengths.len()
    }

    // Where the frame at place i lies among the octets, if there is one.
    pub(crate) fn span(&self, i: usize) -> Option<Range<usize>>
        ensures there { IsSome result ↔ (i < vec_len self.now.lengths) }
        ensures piece { IfSome result (λ s. IsPiece self.now.lengths.items i s.start s.end) }
        ensures within { IfSome result (λ s. s.end ≤ vec_len self.now.octets) }
    {
        let length = usize::from(*self.lengths.get(i)?);
        let start = self.lengths[..i].iter().map(|n| usize::from(*n)).sum();
        Some(start..start + length)
    }

    // The oldest frame, copied to the buffer's start.
    pub(crate) fn look(&self, buffer: &mut [u8]) -> Option<usize>
        ensures answer { result ≡ looked (frames self.now) (length buffer.old) }
        ensures copy { buffer.new ≡ copied (frames self.now) buffer.old }
    {
        let n = usize::from(*self.lengths.first()?);
        if n > buffer.len() {
            return None;
        }
        buffer[..n].copy_from_slice(&self.octets[..n]);
        Some(n)
    }

    // The first octet of the frame at place i.
    pub(crate) fn first_octet(&self, i: usize) -> Option<u8>
        ensures { result ≡ first_of (frames self.now) (i + 1) }
    {
        let span = self.span(i)?;
        Some(self.octets[span.start])
    }
}

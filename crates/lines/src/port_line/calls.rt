// The calls of a line, each at the queue of its port.
ghost use Rattle.std.proofs.Common.{rules};
ghost use Rattle.lines.specs.PortLists.{lists};
ghost use Rattle.lines.specs.PortListsLemmas.{at_past, each_sized};

use crate::fitting::Fitting;
use crate::port_line::PortLine;
use crate::queue::Queue;
use line::{FaultyLine, Line, PORTS, in_range};
use std::alloc::{AllocError, Global};
use std::marker::PhantomData;

impl<F: Fitting> Line for PortLine<F> {
    ghost waiting = { λ l. lists l.queues.items };

    ghost fitting = { λ _. F.rule };

    ghost lawful = { λ _. F.lawful };

    ghost sized = { λ l p. each_sized l.queues.items p };

    ghost outside = { λ l p h. at_past l.queues.items p (Prim.search rules) h };

    // Nothing waits anywhere; no other call takes memory.
    fn empty(heap: Global) -> Result<PortLine<F>, AllocError> {
        let queues: Vec<Queue> = (0..PORTS).map(|_| Queue::new(heap)).try_collect(heap)?;
        Ok(PortLine {
            queues,
            rule: PhantomData,
        })
    }

    fn fits(&self, port: usize, length: usize) -> bool {
        in_range(port, length) && F::fits(&self.queues[port], length)
    }

    fn put(&mut self, port: usize, frame: &[u8]) -> bool {
        let fits = self.fits(port, frame.len());
        if fits {
            self.queues[port].push(frame);
        }
        fits
    }

    fn look(&self, port: usize, buffer: &mut [u8]) -> Option<usize> {
        self.queues.get(port)?.look(buffer)
    }

    fn remove(&mut self, port: usize) {
        if let Some(queue) = self.queues.get_mut(port) {
            queue.remove_at(0);
        }
    }
}

impl<F: Fitting> FaultyLine for PortLine<F> {
    fn lose(&mut self, port: usize, k: usize) -> Option<u8> {
        let i = k.checked_sub(1)?;
        let queue = self.queues.get_mut(port)?;
        let octet = queue.first_octet(i);
        queue.remove_at(i);
        octet
    }
}

// A line as a plain list of frames with their ports, oldest first.
use line::FaultyLine;
use lines::{PackedLine, SlotLine};
use std::alloc::Global;
use std::marker::PhantomData;
use std::test::Fail;

// A line whose rule the model knows, in its own numbers. The rule goes with the type of the line, so that no line can
// run beside the rule of another.
pub(crate) trait Ruled: FaultyLine + Drop {
    // What the frames of a port may take in all.
    const LIMIT: usize;

    // What a frame of this length takes of that.
    fn takes(length: usize) -> usize;
}

impl Ruled for SlotLine {
    const LIMIT: usize = 4;

    fn takes(_length: usize) -> usize {
        1
    }
}

impl Ruled for PackedLine {
    const LIMIT: usize = 4_096;

    fn takes(length: usize) -> usize {
        length.saturating_add(2)
    }
}

#[derive(Drop)]
pub(crate) struct Waiting {
    port: usize,
    octets: Vec<u8>,
}

#[derive(Drop)]
pub(crate) struct Model<L> {
    frames: Vec<Waiting>,
    rule: PhantomData<L>,
}

// A model asks the runtime for memory only, so it takes the heap and not the runtime.
impl<L: Ruled> Model<L> {
    pub(crate) fn new(heap: Global) -> Model<L> {
        Model {
            frames: Vec::new(heap),
            rule: PhantomData,
        }
    }

    pub(crate) fn fits(&self, port: usize, length: usize) -> bool {
        if port > 15 || length == 0 || length > 1_012 {
            return false;
        }
        let here = self.frames.iter().filter(|frame| frame.port == port);
        let taken = here.fold(L::takes(length), |taken, frame| {
            taken.saturating_add(L::takes(frame.octets.len()))
        });
        taken <= L::LIMIT
    }

    pub(crate) fn put(&mut self, heap: Global, port: usize, frame: &[u8]) -> Result<bool, Fail> {
        let fits = self.fits(port, frame.len());
        if fits {
            let octets = Vec::from_slice(heap, frame)?;
            self.frames.push(Waiting { port, octets })?;
        }
        Ok(fits)
    }

    pub(crate) fn oldest(&self, port: usize) -> Option<&[u8]> {
        let frame = self.frames.iter().find(|frame| frame.port == port)?;
        Some(frame.octets.as_slice())
    }

    // The k-th frame of the port goes, 1 the oldest; the answer is its first octet.
    pub(crate) fn lose(&mut self, port: usize, k: usize) -> Option<u8> {
        let ahead = k.checked_sub(1)?;
        let mut here = self
            .frames
            .iter()
            .enumerate()
            .filter(|(_, frame)| frame.port == port);
        let (i, _) = here.nth(ahead)?;
        let gone = self.frames.remove(i);
        gone.octets.first().copied()
    }
}

// A line and its model, side by side: each call goes to both, and the answers must be the same.
use crate::model::{Model, Ruled};
use line::{offer, offer_all, take_oldest};
use std::process::Abort;
use std::test::Fail;

const UNTOUCHED: u8 = 0xA5;

// One octet past the longest frame.
pub(crate) const ROOM: usize = 1_013;

#[derive(Drop)]
pub(crate) struct Pair<'r, R, L> {
    pub(crate) rt: &'r R,
    line: L,
    model: Model<L>,
}

// The buffer holds the frame, if one was found, and is as it was behind it.
fn check_buffer(rt: &impl Abort, buffer: &[u8], found: Option<usize>, oldest: Option<&[u8]>) {
    let frame = oldest.filter(|frame| frame.len() <= buffer.len());
    assert_eq!(rt; found, frame.map(|frame| frame.len()));
    let mut wanted = frame.unwrap_or(&[]).iter().copied();
    for octet in buffer {
        assert_eq!(rt; *octet, wanted.next().unwrap_or(UNTOUCHED));
    }
}

impl<R: Abort + AllocGlobal, L: Ruled> Pair<'_, R, L> {
    pub(crate) fn new(rt: &R) -> Result<Pair<'_, R, L>, Fail> {
        Ok(Pair {
            rt,
            line: L::empty(rt.alloc())?,
            model: Model::new(rt.alloc()),
        })
    }

    pub(crate) fn fits(&self, port: usize, length: usize) {
        assert_eq!(self.rt; self.line.fits(port, length), self.model.fits(port, length));
    }

    pub(crate) fn put(&mut self, port: usize, frame: &[u8]) -> Result<(), Fail> {
        assert_eq!(self.rt;
            self.line.put(port, frame),
            self.model.put(self.rt.alloc(), port, frame)?
        );
        Ok(())
    }

    pub(crate) fn look(&self, port: usize, room: usize) -> Result<(), Fail> {
        let mut buffer = vec![in self.rt.alloc(); UNTOUCHED; room]?;
        let found = self.line.look(port, buffer.as_mut_slice());
        check_buffer(self.rt, buffer.as_slice(), found, self.model.oldest(port));
        Ok(())
    }

    pub(crate) fn take(&mut self, port: usize, room: usize) -> Result<(), Fail> {
        let mut buffer = vec![in self.rt.alloc(); UNTOUCHED; room]?;
        let found = take_oldest(&mut self.line, port, buffer.as_mut_slice());
        check_buffer(self.rt, buffer.as_slice(), found, self.model.oldest(port));
        if found.is_some() {
            let _ = self.model.lose(port, 1);
        }
        Ok(())
    }

    pub(crate) fn remove(&mut self, port: usize) {
        self.line.remove(port);
        let _ = self.model.lose(port, 1);
    }

    pub(crate) fn lose(&mut self, port: usize, k: usize) {
        assert_eq!(self.rt; self.line.lose(port, k), self.model.lose(port, k));
    }

    // The mask of the port if the frame does not fit the model.
    fn missed(&mut self, port: usize, frame: &[u8]) -> Result<u64, Fail> {
        let fits = self.model.put(self.rt.alloc(), port, frame)?;
        Ok(if fits || port >= 64 { 0 } else { 1 << port })
    }

    pub(crate) fn offer(&mut self, port: usize, frame: &[u8]) -> Result<(), Fail> {
        assert_eq!(self.rt;
            offer(&mut self.line, port, frame),
            self.missed(port, frame)?
        );
        Ok(())
    }

    pub(crate) fn offer_all(&mut self, ports: &[usize], frame: &[u8]) -> Result<(), Fail> {
        let mut mask = 0;
        for port in ports {
            mask |= self.missed(*port, frame)?;
        }
        assert_eq!(self.rt; offer_all(&mut self.line, ports, frame), mask);
        Ok(())
    }

    // Everything that is left, frame by frame.
    pub(crate) fn drain(&mut self) -> Result<(), Fail> {
        for port in 0..17usize {
            for _ in 0..1_500usize {
                self.take(port, ROOM)?;
            }
            assert!(self.rt; self.model.oldest(port).is_none());
        }
        Ok(())
    }
}

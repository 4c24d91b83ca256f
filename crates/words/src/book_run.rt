// A book as it stands in a frame: a run of words, borrowed from the frame's octets.
mod check;
mod reads;
mod words;

pub use words::Words;

// Octets that hold the words of a book, with the place in the frame at which they begin.
#[derive(Clone, Copy)]
pub struct BookRun<'a> {
    pub octets: &'a [u8],
    pub place: usize,
}

// The fault of a word.

// A word that may not stand where it does, by the place of its first octet in the frame.
#[derive(Clone, Copy, PartialEq, Eq, Debug)]
pub struct WordFault {
    pub place: usize,
}

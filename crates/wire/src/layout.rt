// Where the parts of a frame stand, and how long they are.
use words::{MOST_MEMBERS, MOST_RULES, WORD_LEN};

// The header of a Meta-AMS frame, and the first words after it.
pub(crate) const HEADER_LEN: usize = 18;

pub(crate) const FIRST_WORD: usize = HEADER_LEN;

pub(crate) const SECOND_WORD: usize = HEADER_LEN + WORD_LEN;

// The longest book.
pub(crate) const BOOK_LEN: usize = (MOST_MEMBERS + MOST_RULES) * WORD_LEN;

// The content of a message stands behind three words.
pub(crate) const CONTENT: usize = 3 * WORD_LEN;

pub(crate) const MOST_CONTENT: usize = 1_000;

// The longest frame is a message with the most content.
pub const LONGEST: usize = CONTENT + MOST_CONTENT;

// A first octet from here on begins a message.
pub const FIRST_OF_MESSAGES: u8 = 128;

// The role octet of the registrar's frames.
pub(crate) const REGISTRAR: u8 = 0;

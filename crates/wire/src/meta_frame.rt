// A Meta-AMS frame whose header was read.
ghost use Rattle.std.specs.Prelude.{◌≡◌, ◌+◌, ◌*◌, ◌<◌, ◌≤◌, length};
ghost use Rattle.words.specs.Words.{word_at};
ghost use Rattle.wire.specs.Checks.{record_at};

use crate::fault::FrameFault;
use crate::header::Header;
use crate::layout::FIRST_WORD;
use words::{InWord, WORD_LEN, word_at};

// Its header and all its octets, among them at least this many words behind the header.
#[derive(Clone, Copy)]
pub(crate) struct MetaFrame<'a, const WORDS: usize> {
    pub(crate) header: Header,
    pub(crate) octets: &'a [u8],
    ghost long: { 18 + 4 * WORDS ≤ length octets.now },
}

impl<const WORDS: usize> MetaFrame<'_, WORDS> {
    // Word `k` behind the header.
    pub(crate) fn word(&self, k: usize) -> u32
        requires { k < WORDS }
        ensures { result ≡ word_at self.now.octets.now (18 + 4 * k) }
    {
        word_at(self.octets, FIRST_WORD + WORD_LEN * k).unwrap()
    }

    // The record that word `k` behind the header carries.
    pub(crate) fn record<T: InWord>(&self, k: usize) -> Result<T, FrameFault>
        requires { k < WORDS }
        ensures { result ≡ record_at T.carries T.within self.now.octets.now (18 + 4 * k) }
    {
        T::from_word(self.word(k), FIRST_WORD + WORD_LEN * k).map_err(FrameFault::Word)
    }
}

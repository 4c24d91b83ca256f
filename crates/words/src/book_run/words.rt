// The words of a run of octets, one after the other.
ghost use Rattle.std.specs.Prelude.{◌≡◌, length};
ghost use Rattle.std.specs.Iterator.{YieldsFirst, item_count};
ghost use Rattle.words.specs.Books.{words_in, words_of};
ghost use Rattle.words.specs.Runs.{words_left};

use crate::word::WORD_LEN;

// Octets behind the last whole word are passed over.
#[derive(Drop)]
pub struct Words<'a> {
    rest: &'a [u8],
}

impl<'a> Words<'a> {
    pub(crate) fn of(octets: &'a [u8]) -> Words<'a>
        ensures words { words_left result ≡ words_of octets.now }
        ensures count { length (words_left result) ≡ words_in octets.now }
    {
        Words { rest: octets }
    }
}

impl<'a> Iterator for Words<'a> {
    type Item = u32;

    ghost next_gives = { YieldsFirst words_left };

    ghost remaining = { item_count words_left };

    fn next(&mut self) -> Option<u32> {
        let (word, rest) = self.rest.split_first_chunk::<WORD_LEN>()?;
        self.rest = rest;
        Some(u32::from_be_bytes(*word))
    }
}

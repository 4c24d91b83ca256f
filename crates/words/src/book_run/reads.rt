// A book is found in a frame, and read word by word.
ghost use Rattle.std.specs.Prelude.{◌≡◌, ◌<◌, ◌≤◌, true, length, drop, IfOk, if◌then◌else◌, Some, None, nat_lt};
ghost use Rattle.words.specs.Records.{member_word};
ghost use Rattle.words.specs.Runs.{seen_book, words_left};
ghost use Rattle.words.specs.Books.{book_sound, has_word, members_before, read_book, rules_before, word_of, words_in, words_of};

use crate::book_run::BookRun;
use crate::book_run::check::{tally_words, wrong_word};
use crate::book_run::words::Words;
use crate::fault::WordFault;
use crate::in_word::InWord;
use crate::member::Member;
use crate::tally::Tally;
use crate::word::{WORD_LEN, word_at};

impl<'a> BookRun<'a> {
    // The book that begins at the octet `at` of a frame and ends with it.
    pub fn read(frame: &'a [u8], at: usize) -> Result<BookRun<'a>, WordFault>
        ensures reads { seen_book result ≡ read_book frame.now at }
        ensures place { IfOk result (λ b. b.place ≡ at) }
    {
        let octets = frame.get(at..).unwrap_or(&[]);
        match wrong_word(octets) {
            None => Ok(BookRun { octets, place: at }),
            Some(k) => Err(WordFault {
                place: at + WORD_LEN * k,
            }),
        }
    }

    pub fn words(&self) -> usize
        ensures { result ≡ words_in self.now.octets.now }
    {
        self.octets.len() / WORD_LEN
    }

    // Its words, in their order.
    pub fn iter(&self) -> Words<'a>
        ensures words { words_left result ≡ words_of self.now.octets.now }
        ensures count { length (words_left result) ≡ words_in self.now.octets.now }
    {
        Words::of(self.octets)
    }

    pub fn word(&self, k: usize) -> Option<u32>
        ensures { result ≡ (if nat_lt k (words_in self.now.octets.now) then Some (word_of self.now.octets.now k) else None) }
    {
        word_at(self.octets, WORD_LEN.checked_mul(k)?)
    }

    // How many members and rules it has.
    pub fn tally(&self) -> Tally
        ensures members { result.members ≡ members_before self.now.octets.now (words_in self.now.octets.now) }
        ensures rules { result.rules ≡ rules_before self.now.octets.now (words_in self.now.octets.now) }
    {
        tally_words(self.octets)
    }

    // Whether the octets are a book.
    pub fn is_sound(&self) -> bool
        ensures sound { result ≡ book_sound self.now.octets.now }
        ensures few { result ≡ true → length self.now.octets.now ≤ 860 }
    {
        wrong_word(self.octets).is_none()
    }

    // Whether the member stands in the book exactly so.
    pub fn has(&self, member: &Member) -> bool
        ensures { result ≡ has_word self.now.octets.now (member_word member.now) }
    {
        let sought = member.to_word();
        self.iter().any(|w| w == sought)
    }
}

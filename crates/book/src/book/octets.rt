// A book from octets, and to octets.
ghost use Rattle.std.specs.Prelude.{◌≡◌, ◌+◌, ◌*◌, ◌<◌, ◌≤◌, [], length, if◌then◌else◌, slice_index};
ghost use Rattle.book.specs.Lists.{members_of, rules_of};
ghost use Rattle.book.specs.Buffers.{all_written, at_start, count_written, word_over};
ghost use Rattle.book.specs.Octets.{book_octets, book_words, members_in, rules_in};
ghost use Rattle.words.specs.Books.{book_sound};

use crate::book::Book;
use crate::filling::fill;
use words::{BookRun, InWord, Member, Rule, WORD_LEN};

impl Book {
    // Every member and every rule goes.
    pub fn clear(&mut self)
        ensures members { members_of self.new ≡ [] }
        ensures rules { rules_of self.new ≡ [] }
    {
        self.members.clear();
        self.rules.clear();
    }

    // The members and rules in the run take the place of its own. False, and the book is as it was, where the octets
    // are not a book; which word is wrong, `BookRun::read` tells.
    pub fn fill(&mut self, run: &BookRun<'_>) -> bool
        ensures answer { result ≡ book_sound run.now.octets.now }
        ensures members { members_of self.new ≡ (if result then members_in run.now.octets.now else members_of self.old) }
        ensures rules { rules_of self.new ≡ (if result then rules_in run.now.octets.now else rules_of self.old) }
    {
        if !run.is_sound() {
            return false;
        }
        fill(&mut self.members, run);
        fill(&mut self.rules, run);
        true
    }

    // How many octets the words of the book have.
    pub fn octet_count(&self) -> usize
        ensures count { result ≡ 4 * (length (members_of self.now) + length (rules_of self.now)) }
        ensures octets { result ≡ length (book_octets (members_of self.now) (rules_of self.now)) }
        ensures most { result ≤ 860 }
    {
        WORD_LEN * (self.members().len() + self.rules().len())
    }

    // Writes the words of the book, ascending, to the start of the buffer, and answers how many octets they have. None,
    // and the buffer is as it was, where it is too short for them.
    pub fn write(&self, buffer: &mut [u8]) -> Option<usize>
        ensures answer { result ≡ count_written (book_octets (members_of self.now) (rules_of self.now)) buffer.old }
        ensures octets { buffer.new ≡ all_written (book_octets (members_of self.now) (rules_of self.now)) buffer.old }
    {
        let count = self.octet_count();
        if buffer.len() < count {
            return None;
        }
        put_words(self.members(), self.rules(), buffer);
        Some(count)
    }
}

// Writes a word to a place of the buffer, by its index: of a chunk that is lent out no more is known than its length.
fn put_word(buffer: &mut [u8], at: usize, w: u32)
    requires { at + 4 ≤ length buffer.old }
    ensures { buffer.new ≡ word_over buffer.old at w }
{
    buffer[at..at + WORD_LEN].copy_from_slice(&w.to_be_bytes());
}

// Writes the words to the buffer, one after the other. One for this and for frames would be public in words, and have to
// answer for a buffer that is too short.
fn put_words(members: &[Member], rules: &[Rule], buffer: &mut [u8])
    requires { 4 * (length members.now + length rules.now) ≤ length buffer.old }
    ensures { buffer.new ≡ at_start (book_octets members.now rules.now) buffer.old }
{
    let of_members = members.iter().map(Member::to_word);
    let of_rules = rules.iter().map(Rule::to_word);
    for (k, w) in of_members.chain(of_rules).enumerate() {
        put_word(buffer, WORD_LEN * k, w);
    }
}

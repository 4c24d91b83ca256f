// The words of a book in turn, each with those before it.
ghost use Rattle.std.specs.Prelude.{◌≡◌, ◌+◌, ◌*◌, ◌<◌, ◌≤◌, length, IfSome, None};
ghost use Rattle.words.specs.Records.{is_member, is_rule};
ghost use Rattle.words.specs.Books.{fits, in_seat, last_before, members_before, numbered, rules_before, sits, stands, word_of, wrong_word, words_in};

use crate::book_run::words::Words;
use crate::member::is_member;
use crate::rule::is_rule;
use crate::tally::{MOST_MEMBERS, MOST_RULES, Tally};
use crate::word::{WORD_LEN, number_of, tail_of};

// The first words of a book, and how many members and rules there are among them.
#[derive(Drop)]
struct Before<'a> {
    book: &'a [u8],
    count: usize,
    last: Option<u32>,
    tally: Tally,
    ghost within: { 4 * count ≤ length book.now },
    ghost ends: { last ≡ last_before book.now count },
    ghost members: { tally.members ≡ members_before book.now count },
    ghost rules: { tally.rules ≡ rules_before book.now count },
}

impl<'a> Before<'a> {
    fn none(book: &'a [u8]) -> Before<'a>
        ensures book { result.book.now ≡ book.now }
        ensures count { result.count ≡ 0 }
    {
        Before {
            book,
            count: 0,
            last: None,
            tally: Tally::default(),
        }
    }

    // With the next word.
    fn with(&self, w: u32) -> Before<'a>
        requires within { 4 * self.now.count + 3 < length self.now.book.now }
        requires next { w ≡ word_of self.now.book.now self.now.count }
        ensures book { result.book.now ≡ self.now.book.now }
        ensures count { result.count ≡ self.now.count + 1 }
    {
        Before {
            book: self.book,
            count: self.count + 1,
            last: Some(w),
            tally: Tally {
                members: self.tally.members + usize::from(is_member(w)),
                rules: self.tally.rules + usize::from(is_rule(w)),
            },
        }
    }

    // Whether a member among them has the number or the port.
    fn has_seat(&self, number: u8, port: u16) -> bool
        ensures { result ≡ stands self.now.book.now self.now.count (in_seat number port) }
    {
        Words::of(self.book).take(self.count).any(|v| is_member(v)
            && (number_of(v) == number || tail_of(v) == port))
    }

    // Whether a member among them has the number.
    fn has_number(&self, number: u8) -> bool
        ensures { result ≡ stands self.now.book.now self.now.count (numbered number) }
    {
        Words::of(self.book)
            .take(self.count)
            .any(|v| is_member(v) && number_of(v) == number)
    }

    // Whether there is room for the word.
    fn seats(&self, w: u32) -> bool
        ensures { result ≡ sits self.now.book.now self.now.count w }
    {
        if is_member(w) {
            self.tally.members < MOST_MEMBERS && !self.has_seat(number_of(w), tail_of(w))
        } else {
            is_rule(w) && self.tally.rules < MOST_RULES && self.has_number(number_of(w))
        }
    }

    // Whether the word may follow them.
    fn fits(&self, w: u32) -> bool
        requires { w ≡ word_of self.now.book.now self.now.count }
        ensures { result ≡ fits self.now.book.now self.now.count }
    {
        self.last.is_none_or(|v| v < w) && self.seats(w)
    }
}

// How many members and rules there are among the words.
pub(crate) fn tally_words(book: &[u8]) -> Tally
    ensures members { result.members ≡ members_before book.now (words_in book.now) }
    ensures rules { result.rules ≡ rules_before book.now (words_in book.now) }
{
    let mut before = Before::none(book);
    for w in Words::of(book) {
        before = before.with(w);
    }
    before.tally
}

// The index of the first wrong word; a word cut short is one.
pub(crate) fn wrong_word(book: &[u8]) -> Option<usize>
    ensures first { result ≡ wrong_word book.now }
    ensures few { result ≡ None → length book.now ≤ 860 }
    ensures within { IfSome result (λ k. 4 * k ≤ length book.now) }
{
    let mut before = Before::none(book);
    for w in Words::of(book) {
        if !before.fits(w) {
            return Some(before.count);
        }
        before = before.with(w);
    }
    if book.len() % WORD_LEN == 0 {
        None
    } else {
        Some(before.count)
    }
}

// Books against a plain model: a sorted list of words, edited in the simplest way.
ghost use Rattle.std.specs.Prelude.{◌<◌};

use crate::UNTOUCHED;
use book::{Book, Change, RuleRefusal};
use std::process::Abort;
use std::test::Fail;
use words::{BookRun, InWord, Member, Rule, RuleKind};

const STEPS: usize = 3_000;

const LONGEST_BOOK: usize = 860;

// The next of a row of numbers below 2^31 that look random.
fn next(seed: u64) -> u64 {
    (seed % 2_147_483_648 * 1_103_515_245 + 12_345) % 2_147_483_648
}

// A number below `n`, by the higher digits.
fn among(seed: u64, n: u8) -> u8
    requires { 0 < n }
    ensures { result < n }
{
    (seed / 65_536 % u64::from(n)) as u8
}

fn drawn_member(seed: u64) -> Member {
    Member {
        number: 1 + among(seed, 15),
        role: 1 + among(next(seed), 3),
        port: 1 + among(next(next(seed)), 15),
    }
}

fn drawn_rule(seed: u64) -> Rule {
    let kind = if among(seed, 2) == 0 {
        RuleKind::Subscription
    } else {
        RuleKind::Invitation
    };
    Rule {
        kind,
        number: 1 + among(next(seed), 15),
        role: among(next(next(seed)), 2),
        subject: u16::from(among(next(next(next(seed))), 3)),
    }
}

// The model takes words apart by itself, so that it is no echo of what it checks.
fn is_member(w: u32) -> bool {
    w / 268_435_456 == 1
}

fn number_of(w: u32) -> u32 {
    w / 1_048_576 % 256
}

fn tail_of(w: u32) -> u32 {
    w % 4_096
}

// A book and its model, the words of the book in their order, which are edited alike.
#[derive(Drop)]
struct Trial<'r, R> {
    rt: &'r R,
    book: Book,
    words: Vec<u32>,
}

impl<R: Abort + AllocGlobal> Trial<'_, R> {
    fn new(rt: &R) -> Result<Trial<'_, R>, Fail> {
        Ok(Trial {
            rt,
            book: Book::new(rt.alloc())?,
            words: Vec::new(rt.alloc()),
        })
    }

    fn holds(&self, number: u8) -> bool {
        let number = u32::from(number);
        self.words
            .iter()
            .any(|w| is_member(*w) && number_of(*w) == number)
    }

    fn has(&self, word: u32) -> bool {
        self.words.contains(&word)
    }

    fn rule_count(&self) -> usize {
        self.words.iter().filter(|w| !is_member(**w)).count()
    }

    // The word in its place.
    fn enter(&mut self, word: u32) -> Result<(), Fail> {
        let behind = self.words.iter().position(|w| word < *w);
        self.words.insert(behind.unwrap_or(self.words.len()), word)?;
        Ok(())
    }

    // All words of this number go.
    fn expel(&mut self, number: u8) {
        let number = u32::from(number);
        self.words.retain(|w| number_of(*w) != number);
    }

    // A member takes its seat: who has its number or its port goes, and then the rules that no member owns.
    fn seat(&mut self, member: u32) -> Result<(), Fail> {
        let (number, port) = (number_of(member), tail_of(member));
        self.words.retain(|w| !is_member(*w) || number_of(*w) != number && tail_of(*w) != port);
        let owners: Vec<u32> = self
            .words
            .iter()
            .copied()
            .filter(|w| is_member(*w))
            .map(number_of)
            .collect(self.rt.alloc())?;
        self.words.retain(|w| owners.contains(&number_of(*w)));
        self.enter(member)
    }

    // The book written is the words of the model, and what lies behind them is untouched; a book filled from them is the
    // same book.
    fn check(&self) -> Result<(), Fail> {
        let (rt, book) = (self.rt, &self.book);
        let mut buffer = vec![in rt.alloc(); UNTOUCHED; LONGEST_BOOK + 1]?;
        let Some(length) = book.write(buffer.as_mut_slice()) else {
            return Err(Fail::new("the book is not written"));
        };
        assert_eq!(rt; length, book.octet_count());
        assert_eq!(rt; length / 4, self.words.len());
        assert_eq!(rt; buffer.get(length), Some(&UNTOUCHED));
        buffer.truncate(length);
        let run = BookRun {
            octets: buffer.as_slice(),
            place: 0,
        };
        for (k, w) in self.words.iter().enumerate() {
            assert_eq!(rt; run.word(k), Some(*w));
        }
        let mut other = Book::new(rt.alloc())?;
        assert!(rt; other.fill(&run));
        assert_eq!(rt; other.members().len(), book.members().len());
        assert_eq!(rt; other.rules().len(), book.rules().len());
        assert!(rt;
            book.members()
                .iter()
                .all(|m| other.has_member(m) && run.has(m))
        );
        assert!(rt; book.rules().iter().all(|u| other.has_rule(u)));
        Ok(())
    }

    // What an addition to the model answers.
    fn wanted(&self, rule: &Rule) -> Result<(), RuleRefusal> {
        if !self.holds(rule.number) {
            Err(RuleRefusal::Invalid)
        } else if self.has(rule.to_word()) {
            Err(RuleRefusal::Standing)
        } else if self.rule_count() < 200 {
            Ok(())
        } else {
            Err(RuleRefusal::Full)
        }
    }

    fn add(&mut self, rule: Rule) -> Result<(), Fail> {
        let rt = self.rt;
        let wanted = self.wanted(&rule);
        assert_eq!(rt; self.book.add_rule(rule), wanted);
        if wanted.is_ok() {
            self.enter(rule.to_word())?;
        }
        Ok(())
    }

    // The member with this number goes, by a change that names it whole.
    fn stop(&mut self, number: u8) {
        let rt = self.rt;
        match self.book.holder(number) {
            Some(member) => {
                assert!(rt; self.has(member.to_word()));
                assert!(rt; self.book.apply(Change::Stopping(member)));
                self.expel(number);
            }
            None => assert!(rt; !self.holds(number)),
        }
    }

    // One edit of the book and of the model; a number draws it.
    fn edit(&mut self, seed: u64) -> Result<(), Fail> {
        let rt = self.rt;
        let member = drawn_member(next(seed));
        let rule = drawn_rule(next(seed));
        match among(seed, 64) {
            0 => {
                assert_eq!(rt;
                    self.book.remove_member(member.number),
                    self.holds(member.number)
                );
                self.expel(member.number);
            }
            1 => self.stop(member.number),
            2 | 3 => {
                assert!(rt; self.book.add_member(member));
                self.seat(member.to_word())?;
            }
            4 | 5 => {
                assert!(rt; self.book.apply(Change::Starting(member)));
                self.seat(member.to_word())?;
            }
            6..=19 => {
                let word = rule.to_word();
                assert_eq!(rt; self.book.remove_rule(&rule), self.has(word));
                self.words.retain(|w| *w != word);
            }
            _ => self.add(rule)?,
        }
        Ok(())
    }

    // 15 members and 200 rules; one rule more finds no room.
    fn fill_up(&mut self) -> Result<(), Fail> {
        let rt = self.rt;
        for port in 1..16u8 {
            let member = Member {
                number: 17 * port,
                role: 255,
                port,
            };
            assert!(rt; self.book.add_member(member));
            self.seat(member.to_word())?;
        }
        for k in 0..201u16 {
            self.add(Rule {
                kind: RuleKind::Invitation,
                number: 17 * (1 + (k % 15) as u8),
                role: (k % 3) as u8,
                subject: 4_095 - k,
            })?;
        }
        Ok(())
    }
}

#[test]
fn random_edits_agree_with_a_plain_list(rt: HostRuntime) -> Result<(), Fail> {
    let mut trial = Trial::new(&rt)?;
    let mut seed = 7;
    for _ in 0..STEPS {
        seed = next(seed);
        trial.edit(seed)?;
        trial.check()?;
    }
    Ok(())
}

#[test]
fn a_full_book_goes_to_octets_and_back(rt: HostRuntime) -> Result<(), Fail> {
    let mut trial = Trial::new(&rt)?;
    trial.fill_up()?;
    assert_eq!(rt; trial.book.octet_count(), LONGEST_BOOK);
    trial.check()?;
    let mut short = vec![in rt.alloc(); UNTOUCHED; LONGEST_BOOK - 1]?;
    assert!(rt; trial.book.write(short.as_mut_slice()).is_none());
    assert!(rt; short.iter().all(|octet| *octet == UNTOUCHED));
    let run = BookRun {
        octets: short.as_slice(),
        place: 0,
    };
    assert!(rt; !trial.book.fill(&run), "octets that are no book");
    // the book is as it was
    trial.check()
}

#[test]
fn an_empty_book_has_no_octets(rt: HostRuntime) -> Result<(), Fail> {
    let mut trial = Trial::new(&rt)?;
    trial.check()?;
    assert_eq!(rt; trial.book.write(&mut []), Some(0));
    trial.fill_up()?;
    let count = trial.words.len();
    let run = BookRun {
        octets: &[],
        place: 18,
    };
    assert!(rt; trial.book.fill(&run), "no octets are an empty book");
    trial.words.clear();
    trial.check()?;
    trial.fill_up()?;
    assert_eq!(rt; trial.words.len(), count);
    trial.book.clear();
    trial.words.clear();
    trial.check()
}

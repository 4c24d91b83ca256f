// A rule to and from its word.
ghost use Rattle.std.specs.Prelude.{◌≡◌, true};
ghost use Rattle.words.specs.Records.{is_rule, read_rule, rule_in, rule_kind_number, rule_kind_numbered, rule_word, valid_rule};
ghost use Rattle.words.specs.Trips.{any_rule_trip};

use crate::fault::WordFault;
use crate::in_word::InWord;
use crate::rule::Rule;
use crate::rule_kind::RuleKind;
use crate::word::{LAST_SUBJECT, kind_of, number_of, role_of, tail_of, word};

impl RuleKind {
    // The kind of the word that carries such a rule.
    pub(crate) fn number(&self) -> u8
        ensures { result ≡ rule_kind_number self.now }
    {
        *self as u8
    }

    // None where no kind has the number: nobody asks more. A trait for what seeks a variant so would be longer.
    pub(crate) fn of_number(number: u8) -> Option<RuleKind>
        ensures { result ≡ rule_kind_numbered number }
    {
        [RuleKind::Subscription, RuleKind::Invitation]
            .iter()
            .copied()
            .find(|kind| kind.number() == number)
    }
}

impl Rule {
    // Whether such a rule may stand.
    pub fn is_valid(&self) -> bool
        ensures { result ≡ valid_rule self.now }
    {
        // Any role may stand.
        prove!(self.role <= 255);
        self.number >= 1 && self.subject <= LAST_SUBJECT
    }

    // The rule of this kind that the word carries; `at` is the word's place, for the fault. The trait's function of this
    // name reads a rule of either kind.
    pub fn from_word(kind: RuleKind, w: u32, at: usize) -> Result<Rule, WordFault>
        ensures { result ≡ read_rule kind w at }
    {
        Rule::of_word(w)
            .filter(|rule| rule.kind == kind)
            .ok_or(WordFault { place: at })
    }
}

impl InWord for Rule {
    ghost valid = { λ u. valid_rule u ≡ true };

    ghost word = { rule_word };

    ghost carries = { is_rule };

    ghost within = { rule_in };

    ghost trip = { any_rule_trip };

    fn to_word(&self) -> u32 {
        word(self.kind.number(), self.number, self.role, self.subject)
    }

    fn of_word(w: u32) -> Option<Rule> {
        let kind = RuleKind::of_number(kind_of(w))?;
        let number = number_of(w);
        (number >= 1).then(|| Rule {
            kind,
            number,
            role: role_of(w),
            subject: tail_of(w),
        })
    }
}

pub(crate) fn is_rule(w: u32) -> bool
    ensures { result ≡ is_rule w }
{
    Rule::of_word(w).is_some()
}

// Members and rules as records of the ordered table: a member's key is its number, and a rule is its own key.
ghost use Rattle.words.specs.Keys.{member_key, rule_key, rule_less};
ghost use Rattle.words.specs.Orders.{rule_order};

use crate::member::Member;
use crate::rule::Rule;
use std::cmp::Ordering;
use table::{Key, Record};

impl Record for Member {
    type Key = u8;

    ghost keyed = { member_key };

    fn key(&self) -> u8 {
        self.number
    }
}

impl Key for Rule {
    ghost less = { rule_less };

    ghost order = { rule_order };

    fn compare(&self, other: &Rule) -> Ordering {
        self.cmp(other)
    }
}

impl Record for Rule {
    type Key = Rule;

    ghost keyed = { rule_key };

    fn key(&self) -> Rule {
        *self
    }
}

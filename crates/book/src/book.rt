// The book of members and rules.
ghost use Rattle.std.specs.Prelude.{◌≡◌, true};
ghost use Rattle.book.specs.Sound.{each, owned, ports_apart};
ghost use Rattle.table.specs.InOrder.{in_order};
ghost use Rattle.words.specs.Records.{valid_member, valid_rule};

use table::Sorted;
use words::{MOST_MEMBERS, MOST_RULES, Member, Rule};

mod apply;
mod edits;
mod numbers;
mod octets;
mod reads;

// Members by number and rules by kind, number, role and subject, each valid; no number and no port stands twice, and
// each rule's number is a member's.
#[derive(Drop)]
pub struct Book {
    pub(crate) members: Sorted<Member, MOST_MEMBERS>,
    pub(crate) rules: Sorted<Rule, MOST_RULES>,
    ghost members_valid: { each valid_member (in_order members) ≡ true },
    ghost rules_valid: { each valid_rule (in_order rules) ≡ true },
    ghost ports: { ports_apart (in_order members) ≡ true },
    ghost owners: { each (owned (in_order members)) (in_order rules) ≡ true },
}

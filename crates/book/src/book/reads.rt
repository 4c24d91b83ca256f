// A book is made, and asked.
ghost use Rattle.std.specs.Prelude.{◌≡◌, [], IfOk, nat_lt};
ghost use Rattle.book.specs.Asked.{seated, stands_so};
ghost use Rattle.book.specs.Matching.{receives};
ghost use Rattle.book.specs.Lists.{members_of, rules_of};
ghost use Rattle.table.specs.Ordered.{looked_up, stands};
ghost use Rattle.words.specs.Keys.{member_key, rule_key, rule_less};

use crate::audience::Envelope;
use crate::book::Book;
use std::alloc::{AllocError, Global};
use table::Sorted;
use words::{Member, Rule};

impl Book {
    // An empty book; no other call takes memory.
    pub fn new(heap: Global) -> Result<Book, AllocError>
        ensures { IfOk result (λ b. (members_of b ≡ []) × (rules_of b ≡ [])) }
    {
        let members = Sorted::new(heap)?;
        let rules = Sorted::new(heap)?;
        Ok(Book { members, rules })
    }

    pub fn members(&self) -> &[Member]
        ensures { result.now ≡ members_of self.now }
    {
        self.members.as_slice()
    }

    pub fn rules(&self) -> &[Rule]
        ensures { result.now ≡ rules_of self.now }
    {
        self.rules.as_slice()
    }

    // Who has this number.
    pub fn holder(&self, number: u8) -> Option<Member>
        ensures { result ≡ looked_up nat_lt member_key number (members_of self.now) }
    {
        self.members.get(&number)
    }

    // Whether this very rule stands.
    pub fn has_rule(&self, rule: &Rule) -> bool
        ensures { result ≡ stands rule_less rule_key (rule_key rule.now) (rules_of self.now) }
    {
        self.rules.contains(rule)
    }

    // Who stands at this port.
    pub fn at_port(&self, port: u8) -> Option<Member>
        ensures { result ≡ seated port (members_of self.now) }
    {
        self.members().iter().find(|m| m.port == port).copied()
    }

    // Whether this member stands exactly so.
    pub fn has_member(&self, member: &Member) -> bool
        ensures { result ≡ stands_so member.now (members_of self.now) }
    {
        self.holder(member.number) == Some(*member)
    }

    // Whether the member receives such a message, by the rules of the book.
    pub fn receives(&self, envelope: Envelope, member: &Member) -> bool
        ensures { result ≡ receives (rules_of self.now) envelope.audience envelope.sender envelope.subject member.now }
    {
        envelope.reaches(member, self.rules())
    }
}

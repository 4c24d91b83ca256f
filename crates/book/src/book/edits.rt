// Members and rules leave a book, and rules enter it.
ghost use Rattle.std.specs.Prelude.{◌≡◌, if◌then◌else◌, filter, nat_lt};
ghost use Rattle.book.specs.Asked.{added, addition};
ghost use Rattle.book.specs.Seating.{rules_with, with_member};
ghost use Rattle.words.specs.Records.{valid_member};
ghost use Rattle.book.specs.Lists.{members_of, rules_of};
ghost use Rattle.book.specs.Sound.{holds, not_of};
ghost use Rattle.table.specs.Ordered.{entered, stands, without};
ghost use Rattle.words.specs.Keys.{member_key, rule_key, rule_less};

use crate::book::Book;
use crate::others::Others;
use crate::rule_refusal::RuleRefusal;
use crate::stayers::{OfMembers, Stayers};
use words::{Member, Rule};

impl Book {
    // The member with this number goes, with its rules; the answer is whether there was one.
    pub fn remove_member(&mut self, number: u8) -> bool
        ensures answer { result ≡ holds number (members_of self.old) }
        ensures members { members_of self.new ≡ without nat_lt member_key number (members_of self.old) }
        ensures rules { rules_of self.new ≡ filter (not_of number) (rules_of self.old) }
    {
        let was = self.members.remove(&number);
        self.rules.retain(&Others { number });
        was
    }

    // The rule goes; the answer is whether it stood.
    pub fn remove_rule(&mut self, rule: &Rule) -> bool
        ensures answer { result ≡ stands rule_less rule_key (rule_key rule.now) (rules_of self.old) }
        ensures members { members_of self.new ≡ members_of self.old }
        ensures rules { rules_of self.new ≡ without rule_less rule_key (rule_key rule.now) (rules_of self.old) }
    {
        self.rules.remove(rule)
    }

    // The rule enters in its place, unless it may not, stands already, or finds no room.
    pub fn add_rule(&mut self, rule: Rule) -> Result<(), RuleRefusal>
        ensures answer { result ≡ addition (members_of self.old) (rules_of self.old) rule }
        ensures members { members_of self.new ≡ members_of self.old }
        ensures rules { rules_of self.new ≡ added result (entered rule_less rule_key rule (rules_of self.old)) (rules_of self.old) }
    {
        if !rule.is_valid() || !self.members.contains(&rule.number) {
            return Err(RuleRefusal::Invalid);
        }
        self.rules.insert(rule)?;
        Ok(())
    }

    // The member takes its seat: those with its number or at its port go first, with their rules. False where it may
    // not stand, which is the only refusal.
    pub fn add_member(&mut self, member: Member) -> bool
        ensures answer { result ≡ valid_member member }
        ensures members { members_of self.new ≡ (if result then with_member member (members_of self.old) else members_of self.old) }
        ensures rules { rules_of self.new ≡ (if result then rules_with member (members_of self.old) (rules_of self.old) else rules_of self.old) }
    {
        if !member.is_valid() {
            return false;
        }
        self.members.retain(&Stayers { comer: member });
        self.rules.retain(&OfMembers {
            members: self.members.as_slice(),
        });
        self.members.insert(member).is_ok()
    }

    // The members and rules of another book take the place of its own.
    pub fn copy_from(&mut self, other: &Book)
        ensures members { members_of self.new ≡ members_of other.now }
        ensures rules { rules_of self.new ≡ rules_of other.now }
    {
        self.members.copy_from(&other.members);
        self.rules.copy_from(&other.rules);
    }
}

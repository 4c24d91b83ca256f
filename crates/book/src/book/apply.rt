// A change is taken in.
ghost use Rattle.std.specs.Prelude.{◌≡◌, if◌then◌else◌};
ghost use Rattle.book.specs.Changes.{members_after, own, rules_after, taken};
ghost use Rattle.book.specs.Lists.{members_of, rules_of};

use crate::book::Book;
use crate::change::Change;
use words::{Member, Rule};

impl Book {
    // Whether the member stands exactly so, and the rule is of its number.
    fn owns(&self, member: &Member, rule: &Rule) -> bool
        ensures { result ≡ own member.now (members_of self.now) rule.now }
    {
        self.has_member(member) && rule.number == member.number
    }

    // Takes in a change, and answers whether it was one; otherwise the book is as it was. Why it was none it leaves out:
    // whether it was one is all that its callers tell.
    pub fn apply(&mut self, change: Change) -> bool
        ensures answer { result ≡ taken (members_of self.old) (rules_of self.old) change }
        ensures members { members_of self.new ≡ (if result then members_after (members_of self.old) change else members_of self.old) }
        ensures rules { rules_of self.new ≡ (if result then rules_after (members_of self.old) (rules_of self.old) change else rules_of self.old) }
    {
        match change {
            Change::Starting(member) => self.add_member(member),
            Change::Stopping(member) => {
                let stands = self.has_member(&member);
                if stands {
                    self.remove_member(member.number);
                }
                stands
            }
            Change::Enter { member, rule } => {
                self.owns(&member, &rule) && self.add_rule(rule).is_ok()
            }
            Change::Withdraw { member, rule } => {
                self.owns(&member, &rule) && self.remove_rule(&rule)
            }
        }
    }
}

// A rule of a member.
use crate::rule_kind::RuleKind;

mod codec;

pub(crate) use codec::is_rule;

// The member of `number` wants messages on a subject (0: on every one) from senders of a role (0: of every one). Rules
// are ordered by their fields, the first field first.
#[derive(Clone, Copy, PartialEq, Eq, PartialOrd, Ord, Debug)]
pub struct Rule {
    pub kind: RuleKind,
    pub number: u8,
    pub role: u8,
    pub subject: u16,
}

// Who receives a message.
ghost use Rattle.std.specs.Prelude.{◌≡◌};
ghost use Rattle.book.specs.Matching.{asks, in_audience, matches, receives, wants};

use crate::audience::{Audience, Envelope};
use words::{Member, Rule, RuleKind};

// Whether the rule is for this subject from senders of this role.
pub fn matches(rule: &Rule, subject: u16, role: u8) -> bool
    ensures { result ≡ matches rule.now subject role }
{
    (rule.subject == 0 || rule.subject == subject) && (rule.role == 0 || rule.role == role)
}

impl Audience {
    // Whether rules of this kind are for such messages.
    fn is_wanted_by(self, kind: RuleKind) -> bool
        ensures { result ≡ wants kind self }
    {
        match self {
            Audience::Published => kind == RuleKind::Subscription,
            Audience::Announced { .. } | Audience::Private { .. } => kind == RuleKind::Invitation,
        }
    }

    fn includes(self, member: &Member) -> bool
        ensures { result ≡ in_audience self member.now }
    {
        match self {
            Audience::Published => true,
            Audience::Announced { domain } => domain == 0 || member.role == domain,
            Audience::Private { number } => member.number == number,
        }
    }
}

impl Envelope {
    // Whether the rule is the member's and asks for the message.
    fn is_asked_for(self, member: &Member, rule: &Rule) -> bool
        ensures { result ≡ asks self.audience self.sender self.subject member.now rule.now }
    {
        rule.number == member.number
            && self.audience.is_wanted_by(rule.kind)
            && matches(rule, self.subject, self.sender.role)
    }

    // Whether the member receives the message, by these rules.
    pub(crate) fn reaches(self, member: &Member, rules: &[Rule]) -> bool
        ensures { result ≡ receives rules.now self.audience self.sender self.subject member.now }
    {
        self.audience.includes(member) && rules.iter().any(|rule| self.is_asked_for(member, rule))
    }
}

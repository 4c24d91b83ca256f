// Who stays when a member takes its seat.
ghost use Rattle.std.specs.Prelude.{◌≡◌};
ghost use Rattle.book.specs.Seating.{stays};
ghost use Rattle.book.specs.Sound.{holds, owned};

use table::Keep;
use words::{Member, Rule};

// The members with another number and another port than the one that comes.
#[derive(Clone, Copy)]
pub(crate) struct Stayers {
    pub(crate) comer: Member,
}

impl Keep<Member> for Stayers {
    ghost keeps = { λ o. stays o.comer };

    fn keep(&self, x: &Member) -> bool {
        x.number != self.comer.number && x.port != self.comer.port
    }
}

// The rules of these members.
#[derive(Clone, Copy)]
pub(crate) struct OfMembers<'a> {
    pub(crate) members: &'a [Member],
}

// One after the other: of fifteen members or fewer this is no slower than to halve them, and it is asked of every rule.
pub(crate) fn held(members: &[Member], number: u8) -> bool
    ensures { result ≡ holds number members.now }
{
    for m in members {
        if m.number == number {
            return true;
        }
    }
    false
}

impl Keep<Rule> for OfMembers<'_> {
    ghost keeps = { λ o. owned o.members.now };

    fn keep(&self, x: &Rule) -> bool {
        held(self.members, x.number)
    }
}

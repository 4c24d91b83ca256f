// What a frame of the registrar tells of a change.
use words::{Member, Rule};

#[derive(Clone, Copy, PartialEq, Eq, Debug)]
pub enum Change {
    // A member takes its seat.
    Starting(Member),
    // A member goes, with its rules.
    Stopping(Member),
    // A rule of a member is entered.
    Enter { member: Member, rule: Rule },
    // A rule of a member is withdrawn.
    Withdraw { member: Member, rule: Rule },
}

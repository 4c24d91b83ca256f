// The frame, by type.
use words::{Applicant, BookRun, Member, MessageHead, ModuleId, Reason, Rule};

mod record;

// The content of a message, a part of the frame's octets, with the place at which it begins.
#[derive(Clone, Copy)]
pub struct ContentRun<'a> {
    pub octets: &'a [u8],
    pub place: usize,
}

// A member asks that a rule of its own be entered or withdrawn.
#[derive(Clone, Copy, PartialEq, Eq, Debug)]
pub struct RuleChange {
    pub time: u64,
    pub member: Member,
    pub rule: Rule,
}

// A frame: eleven types of Meta-AMS frame, and the message. Times are time tags, in 1/256 s.
#[derive(Clone, Copy)]
pub enum Frame<'a> {
    Rejection {
        time: u64,
        reference: u32,
        reason: Reason,
    },
    YouAreDead {
        time: u64,
        module: ModuleId,
    },
    Invite(RuleChange),
    Disinvite(RuleChange),
    ModuleRegistration {
        time: u64,
        query: u32,
        applicant: Applicant,
    },
    YouAreIn {
        time: u64,
        query: u32,
        member: Member,
        book: BookRun<'a>,
    },
    IAmStarting {
        time: u64,
        member: Member,
    },
    Subscribe(RuleChange),
    Unsubscribe(RuleChange),
    IAmStopping {
        time: u64,
        member: Member,
    },
    CellStatus {
        time: u64,
        book: BookRun<'a>,
    },
    // Published, announced or private, as the head says.
    Message {
        head: MessageHead,
        content: ContentRun<'a>,
    },
}

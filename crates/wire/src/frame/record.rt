// What a frame's header says, and whether a frame can carry the record.
ghost use Rattle.std.specs.Prelude.{◌≡◌, ◌≤◌, true, length, Some};
ghost use Rattle.words.specs.Records.{id_of, module_of};
ghost use Rattle.wire.specs.Headers.{header};
ghost use Rattle.wire.specs.Frames.{value};
ghost use Rattle.wire.specs.Writes.{carried, change_carried, change_header, header_of, in_time, write};

use crate::frame::{Frame, RuleChange};
use crate::header::Header;
use crate::layout::{MOST_CONTENT, REGISTRAR};
use crate::meta_type::MetaType as Type;
use words::{Member, RuleKind};

const LAST_TIME: u64 = 1_099_511_627_775;

// Whether the time tag has 40 bits.
fn in_time(time: u64) -> bool
    ensures { result ≡ in_time time }
{
    time <= LAST_TIME
}

fn named(kind: Type, role: u8, reference: u32, time: u64) -> Header
    ensures { result ≡ header kind role reference time }
{
    Header {
        kind,
        role,
        reference,
        time,
    }
}

// With the member's Module ID for a reference.
fn own(kind: Type, role: u8, member: &Member, time: u64) -> Header
    ensures { result ≡ header kind role (id_of (module_of member.now)) time }
{
    named(kind, role, member.module().to_reference(), time)
}

impl RuleChange {
    fn header(&self, kind: Type) -> Header
        ensures { Some result ≡ change_header kind self.now }
    {
        own(kind, self.member.role, &self.member, self.time)
    }

    // Whether a frame for rules of this kind can carry it.
    fn is_carried(&self, kind: RuleKind) -> bool
        ensures { result ≡ change_carried kind self.now }
    {
        in_time(self.time)
            && self.member.is_valid()
            && self.rule.is_valid()
            && self.rule.kind == kind
            && self.rule.number == self.member.number
    }
}

impl Frame<'_> {
    // The header of a Meta-AMS frame; a message has none.
    pub fn header(&self) -> Option<Header>
        ensures { result ≡ header_of (value self.now) }
    {
        let header = match self {
            Frame::Rejection {
                time,
                reference,
                ..
            } => named(Type::Rejection, REGISTRAR, *reference, *time),
            Frame::YouAreDead { time, module } => named(
                Type::YouAreDead,
                REGISTRAR,
                module.to_reference(),
                *time,
            ),
            Frame::Invite(c) => c.header(Type::Invite),
            Frame::Disinvite(c) => c.header(Type::Disinvite),
            Frame::ModuleRegistration {
                time,
                query,
                applicant,
            } => named(Type::ModuleRegistration, applicant.role, *query, *time),
            Frame::YouAreIn { time, query, .. } => named(Type::YouAreIn, REGISTRAR, *query, *time),
            Frame::IAmStarting { time, member } => own(Type::IAmStarting, REGISTRAR, member, *time),
            Frame::Subscribe(c) => c.header(Type::Subscribe),
            Frame::Unsubscribe(c) => c.header(Type::Unsubscribe),
            Frame::IAmStopping { time, member: m } => own(Type::IAmStopping, m.role, m, *time),
            Frame::CellStatus { time, .. } => named(Type::CellStatus, REGISTRAR, 0, *time),
            Frame::Message { .. } => return None,
        };
        Some(header)
    }

    // Whether a frame can carry the record; each arm is all that is asked of its type.
    pub fn is_carried(&self) -> bool
        ensures value { result ≡ carried (value self.now) }
        ensures fits { result ≡ true → length (write (value self.now)) ≤ 1012 }
    {
        match self {
            Frame::Rejection {
                time,
                reference,
                ..
            } => {
                // Every reference can be carried.
                prove!(*reference <= u32::MAX);
                in_time(*time)
            }
            Frame::YouAreDead { time, module } => in_time(*time) && module.is_valid(),
            Frame::Invite(c) | Frame::Disinvite(c) => c.is_carried(RuleKind::Invitation),
            Frame::ModuleRegistration {
                time,
                query,
                applicant,
            } => in_time(*time) && *query >= 1 && applicant.is_valid(),
            Frame::YouAreIn {
                time,
                query,
                member,
                book,
            } => {
                in_time(*time)
                    && *query >= 1
                    && member.is_valid()
                    && book.is_sound()
                    && book.has(member)
            }
            Frame::IAmStarting { time, member } | Frame::IAmStopping { time, member } => in_time(
                *time,
            ) && member.is_valid(),
            Frame::Subscribe(c) | Frame::Unsubscribe(c) => c.is_carried(RuleKind::Subscription),
            Frame::CellStatus { time, book } => in_time(*time) && book.is_sound(),
            Frame::Message { head, content } => head.is_valid()
                && content.octets.len() <= MOST_CONTENT,
        }
    }
}

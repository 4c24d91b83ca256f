// What is said of a frame or of a fault.
ghost use Rattle.std.specs.Prelude.{◌≡◌, ◌++◌, IfOk, Some, string_bytes};
ghost use Rattle.words.specs.Records.{cause_number, rejected_type};
ghost use Rattle.wire.specs.Faults.{layer_number};
ghost use Rattle.wire.specs.Frames.{value};
ghost use Rattle.wire.specs.Reads.{read as read-frame};
ghost use Rattle.explain.specs.Texts.{book_text, change_text, content_text, explained, fault_text, frame_text, header_text, member_text, named_text, reason_text, rule_text, sending_text, subject_text};

use crate::hex::InHex;
use std::alloc::{AllocError, Global};
use std::fmt;
use wire::{ContentRun, FaultCode, Frame, Header, RuleChange, read};
use words::{Applicant, BookRun, Member, MessageHead, Reason, Rule};

// A part of what is explained, printed in plain words.
#[derive(Clone, Copy)]
struct Plain<T>(T);

impl fmt::Display for Plain<Header> {
    ghost output = { λ p. Some (header_text p.0) };

    fn fmt<W: fmt::Write>(&self, f: &mut fmt::Formatter<W>) -> fmt::Result {
        let Header {
            kind,
            role,
            reference,
            time,
        } = self.0;
        write!(f, "{kind} role {role} reference {reference} time {time}")
    }
}

impl fmt::Display for Plain<Member> {
    ghost output = { λ p. Some (named_text p.0) };

    fn fmt<W: fmt::Write>(&self, f: &mut fmt::Formatter<W>) -> fmt::Result {
        let Member { number, role, port } = self.0;
        write!(f, " member {number} {role} {port}")
    }
}

// A module that has no number yet shows number 0.
impl fmt::Display for Plain<Applicant> {
    ghost output = { λ p. Some (member_text 0 p.0.role p.0.port) };

    fn fmt<W: fmt::Write>(&self, f: &mut fmt::Formatter<W>) -> fmt::Result {
        let Applicant { role, port } = self.0;
        Plain(Member {
            number: 0,
            role,
            port,
        })
        .fmt(f)
    }
}

impl fmt::Display for Plain<Rule> {
    ghost output = { λ p. Some (rule_text p.0) };

    fn fmt<W: fmt::Write>(&self, f: &mut fmt::Formatter<W>) -> fmt::Result {
        let Rule {
            kind,
            number,
            role,
            subject,
        } = self.0;
        write!(f, " {kind} {number} {role} {subject}")
    }
}

impl fmt::Display for Plain<RuleChange> {
    ghost output = { λ p. Some (change_text p.0) };

    fn fmt<W: fmt::Write>(&self, f: &mut fmt::Formatter<W>) -> fmt::Result {
        write!(f, "{}{}", Plain(self.0.member), Plain(self.0.rule))
    }
}

impl fmt::Display for Plain<Reason> {
    ghost output = { λ p. Some (reason_text (rejected_type p.0.rejected) (cause_number p.0.cause)) };

    fn fmt<W: fmt::Write>(&self, f: &mut fmt::Formatter<W>) -> fmt::Result {
        write!(
            f,
            " reason {} {}",
            self.0.rejected.number(),
            self.0.cause.number()
        )
    }
}

impl fmt::Display for Plain<BookRun<'_>> {
    ghost output = { λ p. Some (book_text p.0.octets.now) };

    fn fmt<W: fmt::Write>(&self, f: &mut fmt::Formatter<W>) -> fmt::Result {
        let tally = self.0.tally();
        write!(f, " book {} members {} rules", tally.members, tally.rules)
    }
}

// Who sends a message to whom, and what it is about.
impl fmt::Display for Plain<MessageHead> {
    ghost output = { λ p. Some (sending_text p.0 ++ subject_text p.0) };

    fn fmt<W: fmt::Write>(&self, f: &mut fmt::Formatter<W>) -> fmt::Result {
        let MessageHead {
            kind,
            receiver,
            sender,
            role,
            subject,
            priority,
            context,
        } = self.0;
        write!(f, "{kind} to {receiver} from {sender} role {role}")?;
        write!(
            f,
            " subject {subject} priority {priority} context {context}"
        )
    }
}

impl fmt::Display for Plain<ContentRun<'_>> {
    ghost output = { λ p. Some (content_text p.0.octets.now) };

    fn fmt<W: fmt::Write>(&self, f: &mut fmt::Formatter<W>) -> fmt::Result {
        if self.0.octets.is_empty() {
            f.write_str("-")
        } else {
            InHex(self.0.octets).fmt(f)
        }
    }
}

impl fmt::Display for Plain<Frame<'_>> {
    ghost output = { λ p. Some (frame_text (value p.0)) };

    fn fmt<W: fmt::Write>(&self, f: &mut fmt::Formatter<W>) -> fmt::Result {
        if let Some(header) = self.0.header() {
            Plain(header).fmt(f)?;
        }
        match self.0 {
            Frame::Rejection { reason, .. } => Plain(reason).fmt(f),
            Frame::YouAreDead { .. } => Ok(()),
            // One arm for these four leaves the text of a frame with a header unproved.
            Frame::Invite(change) => Plain(change).fmt(f),
            Frame::Disinvite(change) => Plain(change).fmt(f),
            Frame::Subscribe(change) => Plain(change).fmt(f),
            Frame::Unsubscribe(change) => Plain(change).fmt(f),
            Frame::ModuleRegistration { applicant, .. } => Plain(applicant).fmt(f),
            Frame::YouAreIn { member, book, .. } => {
                write!(f, "{}{}", Plain(member), Plain(book))
            }
            Frame::IAmStarting { member, .. } | Frame::IAmStopping { member, .. } => {
                Plain(member).fmt(f)
            }
            Frame::CellStatus { book, .. } => Plain(book).fmt(f),
            Frame::Message { head, content } => {
                write!(f, "{} content {}", Plain(head), Plain(content))
            }
        }
    }
}

impl fmt::Display for Plain<FaultCode> {
    ghost output = { λ p. Some (fault_text p.0.number p.0.place (layer_number p.0.layer)) };

    fn fmt<W: fmt::Write>(&self, f: &mut fmt::Formatter<W>) -> fmt::Result {
        let FaultCode {
            number,
            place,
            layer,
        } = self.0;
        write!(f, "fault {number} at {place} layer {}", layer.number())
    }
}

// What the octets are: a frame in plain words, or the first fault with its place and layer.
pub fn explain(heap: Global, octets: &[u8]) -> Result<String, AllocError>
    ensures { IfOk result (λ s. string_bytes s ≡ explained (read-frame octets.now)) }
{
    match read(octets) {
        Ok(frame) => format!(in heap; "{}", Plain(frame)),
        Err(fault) => format!(in heap; "{}", Plain(fault.code())),
    }
}

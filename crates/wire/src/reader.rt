// Octets to a frame.
ghost use Rattle.std.specs.Prelude.{◌≡◌, ◌≤◌, true, length, IfOk, nat_le, slice_index};
ghost use Rattle.wire.specs.declared.meta_type.MetaType.TheVariants.{IAmStarting, IAmStopping};
ghost use Rattle.wire.specs.Headers.{octet};
ghost use Rattle.wire.specs.Frames.{Gives, home, place_of, seen, value};
ghost use Rattle.wire.specs.Reads.{by_type, message_in, read as read-frame, read_change, read_dead, read_message, read_meta, read_own_rule, read_registration, read_rejection, read_status, read_you_are_in};
ghost use Rattle.wire.specs.Writes.{carried, write};

use crate::fault::FrameFault;
use crate::frame::{ContentRun, Frame, RuleChange};
use crate::header::read_header;
use crate::layout::{CONTENT, FIRST_OF_MESSAGES, FIRST_WORD, MOST_CONTENT, REGISTRAR, SECOND_WORD};
use crate::meta_frame::MetaFrame;
use crate::meta_type::MetaType;
use words::{
    Applicant, BookRun, Member, MessageHead, MessageKind, ModuleId, Reason, Rule, RuleKind,
    WORD_LEN, WordFault, content_length, word_at,
};

impl<'a> MetaFrame<'a, 0> {
    fn read_you_are_dead(&self) -> Result<Frame<'a>, FrameFault>
        ensures { Gives result (read_dead self.now.header) }
    {
        let header = self.header;
        header.check_role(REGISTRAR)?;
        let module = ModuleId::from_reference(header.reference).ok_or(FrameFault::Reference)?;
        Ok(Frame::YouAreDead {
            time: header.time,
            module,
        })
    }

    fn read_cell_status(&self) -> Result<Frame<'a>, FrameFault>
        ensures { Gives result (read_status self.now.octets.now self.now.header) }
    {
        let header = self.header;
        let book = BookRun::read(self.octets, FIRST_WORD)?;
        header.check_ends(REGISTRAR, header.reference == 0)?;
        Ok(Frame::CellStatus {
            time: header.time,
            book,
        })
    }
}

impl<'a> MetaFrame<'a, 1> {
    fn read_rejection(&self) -> Result<Frame<'a>, FrameFault>
        ensures { Gives result (read_rejection self.now.octets.now self.now.header) }
    {
        let header = self.header;
        let reason = self.record::<Reason>(0)?;
        header.check_role(REGISTRAR)?;
        Ok(Frame::Rejection {
            time: header.time,
            reference: header.reference,
            reason,
        })
    }

    fn read_registration(&self) -> Result<Frame<'a>, FrameFault>
        ensures { Gives result (read_registration self.now.octets.now self.now.header) }
    {
        let header = self.header;
        let applicant = self.record::<Applicant>(0)?;
        header.check_ends(applicant.role, header.reference > 0)?;
        Ok(Frame::ModuleRegistration {
            time: header.time,
            query: header.reference,
            applicant,
        })
    }

    fn read_you_are_in(&self) -> Result<Frame<'a>, FrameFault>
        ensures { Gives result (read_you_are_in self.now.octets.now self.now.header) }
    {
        let header = self.header;
        let member = self.record::<Member>(0)?;
        let book = BookRun::read(self.octets, SECOND_WORD)?;
        if !book.has(&member) {
            return Err(FrameFault::Word(WordFault { place: FIRST_WORD }));
        }
        header.check_ends(REGISTRAR, header.reference > 0)?;
        Ok(Frame::YouAreIn {
            time: header.time,
            query: header.reference,
            member,
            book,
        })
    }

    // A member, named by the registrar.
    fn read_starting(&self) -> Result<Frame<'a>, FrameFault>
        ensures { Gives result (by_type IAmStarting self.now.octets.now self.now.header) }
    {
        let member = self.record::<Member>(0)?;
        self.header.check_named(REGISTRAR, &member)?;
        Ok(Frame::IAmStarting {
            time: self.header.time,
            member,
        })
    }

    // A member, named by itself.
    fn read_stopping(&self) -> Result<Frame<'a>, FrameFault>
        ensures { Gives result (by_type IAmStopping self.now.octets.now self.now.header) }
    {
        let member = self.record::<Member>(0)?;
        self.header.check_named(member.role, &member)?;
        Ok(Frame::IAmStopping {
            time: self.header.time,
            member,
        })
    }
}

impl MetaFrame<'_, 2> {
    // A rule of this kind and of the member's number.
    fn read_own_rule(&self, member: &Member, kind: RuleKind) -> Result<Rule, FrameFault>
        ensures { result ≡ read_own_rule kind self.now.octets.now member.now }
    {
        let rule = Rule::from_word(kind, self.word(1), SECOND_WORD)?;
        if rule.number != member.number {
            return Err(FrameFault::Word(WordFault { place: SECOND_WORD }));
        }
        Ok(rule)
    }

    fn read_change(&self, kind: RuleKind) -> Result<RuleChange, FrameFault>
        ensures { result ≡ read_change kind self.now.octets.now self.now.header }
    {
        let member = self.record::<Member>(0)?;
        let rule = self.read_own_rule(&member, kind)?;
        self.header.check_named(member.role, &member)?;
        Ok(RuleChange {
            time: self.header.time,
            member,
            rule,
        })
    }
}

fn read_meta(octets: &[u8]) -> Result<Frame<'_>, FrameFault>
    ensures { Gives result (read_meta octets.now) }
{
    let header = read_header(octets)?;
    // A frame holds references, so the code can't hand its variant to `map`.
    match header.kind {
        MetaType::Rejection => MetaFrame::<1> { header, octets }.read_rejection(),
        MetaType::YouAreDead => MetaFrame::<0> { header, octets }.read_you_are_dead(),
        MetaType::Invite => {
            let change = MetaFrame::<2> { header, octets }.read_change(RuleKind::Invitation)?;
            Ok(Frame::Invite(change))
        }
        MetaType::Disinvite => {
            let change = MetaFrame::<2> { header, octets }.read_change(RuleKind::Invitation)?;
            Ok(Frame::Disinvite(change))
        }
        MetaType::ModuleRegistration => MetaFrame::<1> { header, octets }.read_registration(),
        MetaType::YouAreIn => MetaFrame::<1> { header, octets }.read_you_are_in(),
        MetaType::IAmStarting => MetaFrame::<1> { header, octets }.read_starting(),
        MetaType::Subscribe => {
            let change = MetaFrame::<2> { header, octets }.read_change(RuleKind::Subscription)?;
            Ok(Frame::Subscribe(change))
        }
        MetaType::Unsubscribe => {
            let change = MetaFrame::<2> { header, octets }.read_change(RuleKind::Subscription)?;
            Ok(Frame::Unsubscribe(change))
        }
        MetaType::IAmStopping => MetaFrame::<1> { header, octets }.read_stopping(),
        MetaType::CellStatus => MetaFrame::<0> { header, octets }.read_cell_status(),
    }
}

// The message of this kind whose three words are given.
fn read_words(octets: &[u8], kind: MessageKind, words: [u32; 3]) -> Result<Frame<'_>, FrameFault>
    requires { 12 ≤ length octets.now }
    ensures { Gives result (message_in octets.now kind (slice_index words 0) (slice_index words 1) (slice_index words 2)) }
{
    let head = MessageHead::from_words(kind, words)?;
    let length = content_length(words[1]);
    if length > MOST_CONTENT || octets.len() != CONTENT + length {
        return Err(FrameFault::ContentLength);
    }
    Ok(Frame::Message {
        head,
        content: ContentRun {
            octets: &octets[CONTENT..],
            place: CONTENT,
        },
    })
}

fn read_message(octets: &[u8]) -> Result<Frame<'_>, FrameFault>
    ensures { Gives result (read_message octets.now) }
{
    let (Some(a), Some(b), Some(c)) = (
        word_at(octets, 0),
        word_at(octets, WORD_LEN),
        word_at(octets, 2 * WORD_LEN),
    ) else {
        return Err(FrameFault::Short);
    };
    let kind = MessageKind::of_word(a).ok_or(FrameFault::UnknownKind)?;
    read_words(octets, kind, [a, b, c])
}

fn begins_message(octets: &[u8]) -> bool
    ensures { result ≡ nat_le 128 (octet octets.now 0) }
{
    octets
        .first()
        .is_some_and(|&first| first >= FIRST_OF_MESSAGES)
}

// The frame in a run of octets, or the first fault. Its book or content is a part of the octets.
pub fn read(octets: &[u8]) -> Result<Frame<'_>, FrameFault>
    ensures reads { seen result ≡ read-frame octets.now }
    ensures place { IfOk result (λ f. place_of f ≡ home (value f)) }
    ensures back { IfOk result (λ f. (write (value f) ≡ octets.now) × (carried (value f) ≡ true)) }
{
    if begins_message(octets) {
        read_message(octets)
    } else {
        read_meta(octets)
    }
}

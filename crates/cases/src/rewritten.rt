// Frames read and written again, and records that no frame can carry.
use crate::UNTOUCHED;
use std::process::Abort;
use std::test::Fail;
use wire::{ContentRun, Frame, RuleChange, WriteFault, read, write};
use words::{Applicant, Member, MessageHead, MessageKind, ModuleId, Rule, RuleKind};

// The test's own number, so that it does not move with that of the code.
const LONGEST: usize = 1_012;

// The frame reads, and is written to the same octets, which leave the rest of the buffer alone.
fn check_rewritten(rt: &(impl Abort + AllocGlobal), octets: &[u8]) -> Result<(), Fail> {
    let mut buffer = vec![in rt.alloc(); UNTOUCHED; LONGEST]?;
    let Ok(frame) = read(octets) else {
        return Err(Fail::new("the frame does not read"));
    };
    assert_eq!(rt; write(&frame, buffer.as_mut_slice()), Ok(octets.len()));
    assert_eq!(rt; buffer.get(..octets.len()), Some(octets));
    assert!(rt;
        buffer
            .iter()
            .skip(octets.len())
            .all(|octet| *octet == UNTOUCHED)
    );
    Ok(())
}

// The record is refused, and the buffer is as it was.
fn check_refused(
    rt: &(impl Abort + AllocGlobal),
    frame: &Frame<'_>,
    room: usize,
    wanted: WriteFault,
) -> Result<(), Fail> {
    let mut buffer = vec![in rt.alloc(); UNTOUCHED; room]?;
    assert_eq!(rt; write(frame, buffer.as_mut_slice()), Err(wanted));
    assert!(rt; buffer.iter().all(|octet| *octet == UNTOUCHED));
    Ok(())
}

#[test]
fn frames_of_every_shape_are_rewritten(rt: HostRuntime) -> Result<(), Fail> {
    let frames: [&[u8]; 7] = [
        b"\x02\x01\x00\x00\x00\x00\x00\x04\x05\x00\x00\x03\x1D\x00\x00\x00\x01\x00\x40\x01\x80\x01",
        b"\x03\x01\x00\x00\x00\x00\x00\x00\x05\x00\x00\x03\x1D\xFF\xFF\xFF\xFF\xFF",
        b"\x13\x01\x00\x00\x05\x00\x00\x04\x00\x00\x00\x01\x1D\x00\x00\x00\x00\x00\x10\x00\x50\x04",
        b"\x18\x01\x00\x00\x05\x00\x00\x08\x05\x00\x00\x03\x1D\x00\x00\x00\x03\x00\x10\x30\x50\x04\x20\x30\x00\x07",
        b"\x14\x01\x00\x00\x00\x00\x00\x08\x00\x00\x00\x01\x1D\x00\x00\x00\x08\x00\x10\x30\x50\x04\x10\x30\x50\x04",
        b"\x1C\x01\x00\x00\x00\x00\x00\x00\x00\x00\x00\x00\x1D\x00\x00\x00\x00\x09",
        b"\x80\x10\x90\x07\xD0\x23\x00\x02\xE0\x00\x00\x00\x41\x42",
    ];
    for octets in frames {
        check_rewritten(&rt, octets)?;
    }
    Ok(())
}

fn dead(number: u8) -> Frame<'static> {
    Frame::YouAreDead {
        time: 0,
        module: ModuleId { number, role: 5 },
    }
}

const MEMBER: Member = Member {
    number: 3,
    role: 5,
    port: 4,
};

fn subscribing(kind: RuleKind, owner: u8) -> Frame<'static> {
    Frame::Subscribe(RuleChange {
        time: 0,
        member: MEMBER,
        rule: Rule {
            kind,
            number: owner,
            role: 0,
            subject: 7,
        },
    })
}

#[test]
fn a_short_buffer_is_refused_before_the_record_is_looked_at(rt: HostRuntime) -> Result<(), Fail> {
    check_refused(&rt, &dead(3), LONGEST - 1, WriteFault::ShortBuffer)?;
    check_refused(&rt, &dead(0), 0, WriteFault::ShortBuffer)?;
    check_refused(&rt, &dead(0), LONGEST, WriteFault::OutOfRange)
}

#[test]
fn records_that_no_frame_can_carry_are_refused(rt: HostRuntime) -> Result<(), Fail> {
    let records = [
        Frame::IAmStarting {
            time: 1_099_511_627_776,
            member: MEMBER,
        },
        Frame::ModuleRegistration {
            time: 0,
            query: 0,
            applicant: Applicant { role: 5, port: 4 },
        },
        subscribing(RuleKind::Invitation, 3),
        subscribing(RuleKind::Subscription, 2),
    ];
    for record in &records {
        check_refused(&rt, record, LONGEST, WriteFault::OutOfRange)?;
    }
    Ok(())
}

#[test]
fn content_over_the_limit_is_refused(rt: HostRuntime) -> Result<(), Fail> {
    let octets = vec![in rt.alloc(); 0; 1001]?;
    let head = MessageHead {
        kind: MessageKind::Private,
        receiver: 1,
        role: 9,
        subject: 7,
        sender: 2,
        priority: 3,
        context: 0,
    };
    let content = ContentRun {
        octets: octets.as_slice(),
        place: 12,
    };
    check_refused(
        &rt,
        &Frame::Message { head, content },
        LONGEST,
        WriteFault::OutOfRange,
    )
}

// A frame to octets.
ghost use Rattle.std.specs.Prelude.{◌≡◌, ◌≤◌, ◌++◌, length, drop};
ghost use Rattle.wire.specs.Frames.{value};
ghost use Rattle.wire.specs.Writes.{built, data_of, write as write-frame, write_answer};

use crate::fault::WriteFault;
use crate::frame::Frame;
use crate::header::header_octets;
use crate::layout::{HEADER_LEN, LONGEST};
use crate::octets::{put, put_worded};
use words::InWord;

// What follows the header, or a whole message; the answer is its length.
fn put_data(frame: &Frame<'_>, buffer: &mut [u8]) -> usize
    requires { (length (data_of (value frame.now)) ≤ length buffer.old) × (length (data_of (value frame.now)) ≤ 1012) }
    ensures octets { buffer.new ≡ data_of (value frame.now) ++ drop result buffer.old }
    ensures count { result ≡ length (data_of (value frame.now)) }
{
    match frame {
        Frame::Rejection { reason, .. } => put_worded(buffer, &[reason.to_word()], &[]),
        Frame::YouAreDead { .. } => put(buffer, &[]),
        Frame::Invite(change)
        | Frame::Disinvite(change)
        | Frame::Subscribe(change)
        | Frame::Unsubscribe(change) => {
            put_worded(
                buffer,
                &[change.member.to_word(), change.rule.to_word()],
                &[],
            )
        }
        Frame::ModuleRegistration { applicant, .. } => put_worded(
            buffer,
            &[applicant.to_word()],
            &[],
        ),
        Frame::YouAreIn { member, book, .. } => put_worded(
            buffer,
            &[member.to_word()],
            book.octets,
        ),
        Frame::IAmStarting { member, .. } | Frame::IAmStopping { member, .. } => put_worded(
            buffer,
            &[member.to_word()],
            &[],
        ),
        Frame::CellStatus { book, .. } => put(buffer, book.octets),
        Frame::Message { head, content } => put_worded(
            buffer,
            &head.to_words(content.octets.len() as u16),
            content.octets,
        ),
    }
}

fn put_frame(frame: &Frame<'_>, buffer: &mut [u8]) -> usize
    requires { (length (write-frame (value frame.now)) ≤ 1012) × (1012 ≤ length buffer.old) }
    ensures octets { buffer.new ≡ write-frame (value frame.now) ++ drop result buffer.old }
    ensures count { result ≡ length (write-frame (value frame.now)) }
{
    match frame.header() {
        Some(h) => {
            let supplement = put_data(frame, &mut buffer[HEADER_LEN..]);
            put(buffer, &header_octets(h, supplement as u16)) + supplement
        }
        None => put_data(frame, buffer),
    }
}

// Writes the frame to the buffer's start; the answer is its length. What lies past the frame stays, and after a
// refusal all of it.
pub fn write(frame: &Frame<'_>, buffer: &mut [u8]) -> Result<usize, WriteFault>
    ensures answer { result ≡ write_answer (length buffer.old) (value frame.now) }
    ensures octets { buffer.new ≡ built result (write-frame (value frame.now)) buffer.old }
{
    if buffer.len() < LONGEST {
        return Err(WriteFault::ShortBuffer);
    }
    if !frame.is_carried() {
        return Err(WriteFault::OutOfRange);
    }
    Ok(put_frame(frame, buffer))
}

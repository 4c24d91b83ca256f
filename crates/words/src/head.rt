// What the three words of a message say.
use crate::message_kind::MessageKind;

mod codec;

pub use codec::content_length;

// A message but for its content: the receiver's number, and the sender's role and number.
#[derive(Clone, Copy, PartialEq, Eq, Debug)]
pub struct MessageHead {
    pub kind: MessageKind,
    pub receiver: u8,
    pub role: u8,
    pub subject: u16,
    pub sender: u8,
    pub priority: u8,
    pub context: u32,
}

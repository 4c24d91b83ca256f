// A member of the message space.

mod codec;

pub(crate) use codec::is_member;

// A module that holds a number, at its port.
#[derive(Clone, Copy, PartialEq, Eq, Debug)]
pub struct Member {
    pub number: u8,
    pub role: u8,
    pub port: u8,
}

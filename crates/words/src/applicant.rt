// A module that asks for a number.

mod codec;

// A module of a role at a port, with no number yet: its word has number 0.
#[derive(Clone, Copy, PartialEq, Eq, Debug)]
pub struct Applicant {
    pub role: u8,
    pub port: u8,
}

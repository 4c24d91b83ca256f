// Why a call is refused: in the order in which it is checked, with the numbers that an operator sees.
ghost use Rattle.std.specs.Prelude.{◌≡◌};
ghost use Rattle.rules.specs.Codes.{refusal_code, refusal_number};

use wire::FaultCode;

// A refused write has the same two numbers, 23 and 12: a discriminant is a number, and names no other.
#[derive(Clone, Copy, PartialEq, Eq, Debug)]
pub enum Refusal {
    // A lent buffer is shorter than the longest frame.
    ShortBuffer = 23,
    // The port is none of an end; at `lose`, none of the line.
    BadPort = 11,
    // A value is out of its range.
    OutOfRange = 12,
    // The end is not in.
    NotIn = 13,
    // The end is in already.
    AlreadyIn = 14,
    // The end's query numbers are used up.
    QueriesUsedUp = 15,
    // No member has the number or the port.
    NoSuchMember = 16,
    // The receiver has no invitation that matches.
    NotInvited = 17,
    // The frame does not fit at its port.
    Full = 21,
    // No frame waits there, or none so far back.
    NothingWaiting = 22,
}

impl Refusal {
    pub fn number(&self) -> u8
        ensures { result ≡ refusal_number self.now }
    {
        *self as u8
    }

    // Every refusal lies above the frame, at place 0.
    pub fn code(&self) -> FaultCode
        ensures { result ≡ refusal_code self.now }
    {
        FaultCode::above(self.number())
    }
}

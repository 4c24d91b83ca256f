// What was lost: a message, or a frame of another kind.
ghost use Rattle.std.specs.Prelude.{◌≡◌};
ghost use Rattle.rules.specs.Codes.{lost_by, lost_code};

use wire::FIRST_OF_MESSAGES;

#[derive(Clone, Copy, PartialEq, Eq, Debug)]
pub enum Lost {
    Message = 1,
    Other = 2,
}

impl Lost {
    pub fn code(&self) -> u8
        ensures { result ≡ lost_code self.now }
    {
        *self as u8
    }

    // Told by the frame's first octet; `from` an octet would not say which.
    pub fn of_first_octet(octet: u8) -> Lost
        ensures { result ≡ lost_by octet }
    {
        if octet < FIRST_OF_MESSAGES {
            Lost::Other
        } else {
            Lost::Message
        }
    }
}

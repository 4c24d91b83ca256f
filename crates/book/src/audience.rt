// Whom a message is for, who sends it, and what it is on.
use words::ModuleId;

#[derive(Clone, Copy, PartialEq, Eq, Debug)]
pub enum Audience {
    // Every member that subscribes.
    Published,
    // Every member of a domain role (0: of every role) that invites.
    Announced { domain: u8 },
    // The member with this number, if it invites.
    Private { number: u8 },
}

// All of a message that says who receives it.
#[derive(Clone, Copy, PartialEq, Eq, Debug)]
pub struct Envelope {
    pub audience: Audience,
    pub sender: ModuleId,
    pub subject: u16,
}

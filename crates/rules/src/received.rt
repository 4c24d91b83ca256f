// What an end made of the frame that it received.
ghost use Rattle.std.specs.Prelude.{◌≡◌};
ghost use Rattle.rules.specs.Codes.{received_code, received_fault, received_reason, received_sender, received_type};

use wire::{FaultCode, FrameFault, MetaType};
use words::Reason;

#[derive(Clone, Copy, PartialEq, Eq, Debug)]
pub enum Received {
    // A message for the end, which one of its rules asks for.
    HandedOver { sender: u8 },
    // Any other message.
    TurnedAside { sender: u8 },
    // A Meta-AMS frame that the end acted on.
    Read { kind: MetaType },
    // A request of the end was rejected.
    Rejected { reason: Reason },
    // The octets are no frame.
    Unreadable { fault: FrameFault },
    // A Meta-AMS frame that changed nothing.
    SetAside { kind: MetaType },
}

impl Received {
    // Cases that hold values have no discriminants.
    pub fn code(&self) -> u8
        ensures { result ≡ received_code self.now }
    {
        match self {
            Received::HandedOver { .. } => 1,
            Received::TurnedAside { .. } => 2,
            Received::Read { .. } => 3,
            Received::Rejected { .. } => 4,
            Received::Unreadable { .. } => 5,
            Received::SetAside { .. } => 6,
        }
    }

    // Who sent the message.
    pub fn sender(&self) -> Option<u8>
        ensures { result ≡ received_sender self.now }
    {
        match self {
            Received::HandedOver { sender } | Received::TurnedAside { sender } => Some(*sender),
            _ => None,
        }
    }

    // The number of the type of a Meta-AMS frame that was read or set aside.
    pub fn type_number(&self) -> Option<u8>
        ensures { result ≡ received_type self.now }
    {
        match self {
            Received::Read { kind } | Received::SetAside { kind } => Some(kind.number()),
            _ => None,
        }
    }

    // Why a request of the end was rejected.
    pub fn reason(&self) -> Option<Reason>
        ensures { result ≡ received_reason self.now }
    {
        match self {
            Received::Rejected { reason } => Some(*reason),
            _ => None,
        }
    }

    // What is told of octets that are no frame.
    pub fn fault(&self) -> Option<FaultCode>
        ensures { result ≡ received_fault self.now }
    {
        match self {
            Received::Unreadable { fault } => Some(fault.code()),
            _ => None,
        }
    }
}

// What the registrar made of the frame that it served. A mask has a bit for each port at which a frame did not fit.
ghost use Rattle.std.specs.Prelude.{◌≡◌};
ghost use Rattle.rules.specs.Codes.{served_code, served_fault, served_missed};

use wire::{FaultCode, FrameFault};

#[derive(Clone, Copy, PartialEq, Eq, Debug)]
pub enum Served {
    // The book changed, and the members were told.
    Done { missed: u64 },
    // There was nothing to change.
    Unchanged,
    // The rule list is full, and the sender was told.
    Rejected { missed: u64 },
    // The book does not have the sender, which was told, unless it was stopping.
    Unknown { missed: u64 },
    // The octets are no frame.
    Unreadable { fault: FrameFault },
    // The frame is none that a module sends to the registrar.
    SetAside,
}

impl Served {
    // Cases that hold values have no discriminants.
    pub fn code(&self) -> u8
        ensures { result ≡ served_code self.now }
    {
        match self {
            Served::Done { .. } => 1,
            Served::Unchanged => 2,
            Served::Rejected { .. } => 3,
            Served::Unknown { .. } => 4,
            Served::Unreadable { .. } => 5,
            Served::SetAside => 6,
        }
    }

    // The ports at which a frame did not fit.
    pub fn missed(&self) -> u64
        ensures { result ≡ served_missed self.now }
    {
        match self {
            Served::Done { missed } | Served::Rejected { missed } | Served::Unknown { missed } =>
                *missed,
            _ => 0,
        }
    }

    // What is told of octets that are no frame.
    pub fn fault(&self) -> Option<FaultCode>
        ensures { result ≡ served_fault self.now }
    {
        match self {
            Served::Unreadable { fault } => Some(fault.code()),
            _ => None,
        }
    }
}

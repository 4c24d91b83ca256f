// Faults of reading and refusals to write.
ghost use Rattle.std.specs.Prelude.{◌≡◌};
ghost use Rattle.wire.specs.Faults.{code, fault_of, layer_number, write_fault_of};
ghost use Rattle.wire.specs.declared.fault.Layer.TheVariants.{Above};
ghost use Rattle.wire.specs.declared.fault.FrameFault.TheVariants.{Word as of_word};

use words::WordFault;

// Where a fault arose.
#[derive(Clone, Copy, PartialEq, Eq, Debug)]
pub enum Layer {
    Word = 1,
    Frame = 2,
    Above = 3,
}

// What is told of a fault: its number, the octet at which it lies, and its layer.
#[derive(Clone, Copy, PartialEq, Eq, Debug)]
pub struct FaultCode {
    pub number: u8,
    pub place: usize,
    pub layer: Layer,
}

// Why a run of octets is no frame, in the order in which it is checked.
#[derive(Clone, Copy, PartialEq, Eq, Debug)]
pub enum FrameFault {
    // Shorter than a header, or than the three words of a message.
    Short,
    // A version other than 0, or a checksum flag.
    Version,
    // No type of Meta-AMS frame, or no kind of message, has this number.
    UnknownKind,
    Venture,
    Unit,
    Signature,
    TimeCode,
    // The supplementary length is wrong for the type or for the frame.
    SupplementLength,
    // The content's length is wrong for the frame, or above its limit.
    ContentLength,
    Word(WordFault),
    Role,
    Reference,
}

// Why a frame is not written. A refused call may have the same numbers: a discriminant is a number, and names no other.
#[derive(Clone, Copy, PartialEq, Eq, Debug)]
pub enum WriteFault {
    // The buffer is shorter than the longest frame.
    ShortBuffer = 23,
    // No frame can carry the record.
    OutOfRange = 12,
}

impl From<WordFault> for FrameFault {
    ghost from_gives = { λ e r. r ≡ of_word e };

    fn from(e: WordFault) -> FrameFault {
        FrameFault::Word(e)
    }
}

impl FaultCode {
    // Of a refusal: above the frame, at place 0.
    pub fn above(number: u8) -> FaultCode
        ensures { result ≡ code number 0 Above }
    {
        FaultCode {
            number,
            place: 0,
            layer: Layer::Above,
        }
    }
}

impl Layer {
    pub fn number(&self) -> u8
        ensures { result ≡ layer_number self.now }
    {
        *self as u8
    }
}

impl FrameFault {
    pub fn code(&self) -> FaultCode
        ensures { result ≡ fault_of self.now }
    {
        // Several faults have one number, so it can't be the variant's own.
        let (number, place, layer) = match self {
            FrameFault::Short => (1, 0, Layer::Frame),
            FrameFault::Version => (2, 0, Layer::Frame),
            FrameFault::UnknownKind => (3, 0, Layer::Frame),
            FrameFault::Venture => (4, 1, Layer::Frame),
            FrameFault::Unit => (4, 2, Layer::Frame),
            FrameFault::Signature => (4, 5, Layer::Frame),
            FrameFault::TimeCode => (4, 12, Layer::Frame),
            FrameFault::SupplementLength => (5, 6, Layer::Frame),
            FrameFault::ContentLength => (5, 4, Layer::Frame),
            FrameFault::Word(fault) => (6, fault.place, Layer::Word),
            FrameFault::Role => (7, 4, Layer::Frame),
            FrameFault::Reference => (7, 8, Layer::Frame),
        };
        FaultCode {
            number,
            place,
            layer,
        }
    }
}

impl WriteFault {
    pub fn code(&self) -> FaultCode
        ensures { result ≡ write_fault_of self.now }
    {
        FaultCode::above(*self as u8)
    }
}

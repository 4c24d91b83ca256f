// The header of a Meta-AMS frame.
ghost use Rattle.std.specs.Prelude.{◌≡◌, true};

use crate::fault::FrameFault;
use crate::meta_type::MetaType;
use words::Member;

mod codec;

pub(crate) use codec::{header_octets, read_header};

// What a header says beside its fixed fields and the supplementary length; the role is the sender's, 0 for the registrar.
#[derive(Clone, Copy, PartialEq, Eq, Debug)]
pub struct Header {
    pub kind: MetaType,
    pub role: u8,
    pub reference: u32,
    pub time: u64,
}

impl Header {
    ghost use Rattle.wire.specs.Reads.{ends, refers_to};

    // The role octet.
    pub(crate) fn check_role(&self, role: u8) -> Result<(), FrameFault>
        ensures { result ≡ ends self.now role true }
    {
        if self.role == role {
            Ok(())
        } else {
            Err(FrameFault::Role)
        }
    }

    // The last two checks: the role octet, then whether the reference is right.
    pub(crate) fn check_ends(&self, role: u8, refers: bool) -> Result<(), FrameFault>
        ensures { result ≡ ends self.now role refers }
    {
        self.check_role(role)?;
        if refers {
            Ok(())
        } else {
            Err(FrameFault::Reference)
        }
    }

    // The same, where the reference is the member's Module ID.
    pub(crate) fn check_named(&self, role: u8, member: &Member) -> Result<(), FrameFault>
        ensures { result ≡ ends self.now role (refers_to self.now member.now) }
    {
        self.check_ends(role, self.reference == member.module().to_reference())
    }
}

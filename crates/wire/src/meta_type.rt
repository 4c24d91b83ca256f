// The eleven types of Meta-AMS frame.
ghost use Rattle.std.specs.Prelude.{◌≡◌};
ghost use Rattle.wire.specs.Types.{length_right, type_number, type_of};
ghost use Rattle.wire.specs.Headers.{typed};

use crate::fault::FrameFault;
use crate::layout::BOOK_LEN;
use words::WORD_LEN;

// Each with its number, the type in the header's first octet.
#[derive(Clone, Copy, PartialEq, Eq, Debug)]
pub enum MetaType {
    Rejection = 2,
    YouAreDead = 3,
    Invite = 8,
    Disinvite = 9,
    ModuleRegistration = 19,
    YouAreIn = 20,
    IAmStarting = 21,
    Subscribe = 24,
    Unsubscribe = 25,
    IAmStopping = 26,
    CellStatus = 28,
}

impl TryFrom<u8> for MetaType {
    type Error = FrameFault;

    ghost try_from_gives = { λ n r. r ≡ typed (type_of n) };

    fn try_from(n: u8) -> Result<MetaType, FrameFault> {
        MetaType::of_number(n).ok_or(FrameFault::UnknownKind)
    }
}

impl MetaType {
    // Sought among the variants by its number it is proved, but the check cannot write that down for the crates above.
    pub fn of_number(n: u8) -> Option<MetaType>
        ensures { result ≡ type_of n }
    {
        match n {
            2 => Some(MetaType::Rejection),
            3 => Some(MetaType::YouAreDead),
            8 => Some(MetaType::Invite),
            9 => Some(MetaType::Disinvite),
            19 => Some(MetaType::ModuleRegistration),
            20 => Some(MetaType::YouAreIn),
            21 => Some(MetaType::IAmStarting),
            24 => Some(MetaType::Subscribe),
            25 => Some(MetaType::Unsubscribe),
            26 => Some(MetaType::IAmStopping),
            28 => Some(MetaType::CellStatus),
            _ => None,
        }
    }

    pub fn number(&self) -> u8
        ensures { result ≡ type_number self.now }
    {
        *self as u8
    }

    // Whether supplementary data may have this many octets.
    pub(crate) fn allows(&self, length: usize) -> bool
        ensures { result ≡ length_right self.now length }
    {
        match self {
            MetaType::YouAreDead => length == 0,
            MetaType::Rejection
            | MetaType::ModuleRegistration
            | MetaType::IAmStarting
            | MetaType::IAmStopping => length == WORD_LEN,
            MetaType::Invite | MetaType::Disinvite | MetaType::Subscribe | MetaType::Unsubscribe =>
                length == 2 * WORD_LEN,
            MetaType::YouAreIn => length >= WORD_LEN
                && length <= WORD_LEN + BOOK_LEN
                && length % WORD_LEN == 0,
            MetaType::CellStatus => length <= BOOK_LEN && length % WORD_LEN == 0,
        }
    }
}

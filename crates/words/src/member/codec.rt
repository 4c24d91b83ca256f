// A member to and from its word, and its Module ID.
ghost use Rattle.std.specs.Prelude.{◌≡◌, true};
ghost use Rattle.words.specs.Records.{is_member, member_in, member_word, module_of, valid_member};
ghost use Rattle.words.specs.Trips.{member_trip};

use crate::in_word::InWord;
use crate::member::Member;
use crate::module_id::ModuleId;
use crate::word::{MEMBER_KIND, kind_of, may_sit, number_of, role_of, tail_of, word};

impl Member {
    // Whether such a member may stand.
    pub fn is_valid(&self) -> bool
        ensures { result ≡ valid_member self.now }
    {
        self.number >= 1 && may_sit(self.role, u16::from(self.port))
    }

    pub fn module(&self) -> ModuleId
        ensures { result ≡ module_of self.now }
    {
        ModuleId {
            number: self.number,
            role: self.role,
        }
    }
}

impl InWord for Member {
    ghost valid = { λ m. valid_member m ≡ true };

    ghost word = { member_word };

    ghost carries = { is_member };

    ghost within = { member_in };

    ghost trip = { member_trip };

    fn to_word(&self) -> u32 {
        word(MEMBER_KIND, self.number, self.role, u16::from(self.port))
    }

    fn of_word(w: u32) -> Option<Member> {
        is_member(w).then(|| Member {
            number: number_of(w),
            role: role_of(w),
            port: tail_of(w) as u8,
        })
    }
}

pub(crate) fn is_member(w: u32) -> bool
    ensures { result ≡ is_member w }
{
    kind_of(w) == MEMBER_KIND && number_of(w) >= 1 && may_sit(role_of(w), tail_of(w))
}

// An applicant to and from its word.
ghost use Rattle.std.specs.Prelude.{◌≡◌, true};
ghost use Rattle.words.specs.Records.{applicant_in, applicant_word, is_applicant, valid_applicant};
ghost use Rattle.words.specs.Trips.{applicant_trip};

use crate::applicant::Applicant;
use crate::in_word::InWord;
use crate::word::{MEMBER_KIND, kind_of, may_sit, number_of, role_of, tail_of, word};

impl Applicant {
    // Whether such a module may ask.
    pub fn is_valid(&self) -> bool
        ensures { result ≡ valid_applicant self.now }
    {
        may_sit(self.role, u16::from(self.port))
    }
}

impl InWord for Applicant {
    ghost valid = { λ a. valid_applicant a ≡ true };

    ghost word = { applicant_word };

    ghost carries = { is_applicant };

    ghost within = { applicant_in };

    ghost trip = { applicant_trip };

    fn to_word(&self) -> u32 {
        word(MEMBER_KIND, 0, self.role, u16::from(self.port))
    }

    fn of_word(w: u32) -> Option<Applicant> {
        is_applicant(w).then(|| Applicant {
            role: role_of(w),
            port: tail_of(w) as u8,
        })
    }
}

fn is_applicant(w: u32) -> bool
    ensures { result ≡ is_applicant w }
{
    kind_of(w) == MEMBER_KIND && number_of(w) == 0 && may_sit(role_of(w), tail_of(w))
}

// Why a request was rejected.
ghost use Rattle.std.specs.Prelude.{◌≡◌, ⊤};
ghost use Rattle.words.specs.Records.{cause_number, cause_numbered, is_reason, reason_in, reason_word, rejected_numbered, rejected_type};
ghost use Rattle.words.specs.Trips.{reason_trip};

use crate::in_word::InWord;
use crate::word::{kind_of, number_of, role_of, tail_of, word};

const KIND: u8 = 4;

// The request that was rejected; its number is the type of its frame, which a crate above this one names.
#[derive(Clone, Copy, PartialEq, Eq, Debug)]
pub enum Rejected {
    Invite = 8,
    Subscribe = 24,
}

#[derive(Clone, Copy, PartialEq, Eq, Debug)]
pub enum Cause {
    // The book has as many rules as it can hold.
    RuleListFull = 1,
}

#[derive(Clone, Copy, PartialEq, Eq, Debug)]
pub struct Reason {
    pub rejected: Rejected,
    pub cause: Cause,
}

impl Rejected {
    pub fn number(&self) -> u8
        ensures { result ≡ rejected_type self.now }
    {
        *self as u8
    }

    // None where no request has the number: nobody asks more, so `try_from` would have an error that says nothing. A
    // trait for what seeks a variant so would be longer.
    pub fn of_number(number: u8) -> Option<Rejected>
        ensures { result ≡ rejected_numbered number }
    {
        [Rejected::Invite, Rejected::Subscribe]
            .iter()
            .copied()
            .find(|rejected| rejected.number() == number)
    }
}

impl Cause {
    pub fn number(&self) -> u16
        ensures { result ≡ cause_number self.now }
    {
        *self as u16
    }

    // None where no cause has the number: nobody asks more.
    pub fn of_number(number: u16) -> Option<Cause>
        ensures { result ≡ cause_numbered number }
    {
        (number == Cause::RuleListFull.number()).then_some(Cause::RuleListFull)
    }
}

impl InWord for Reason {
    ghost valid = { λ _. ⊤ };

    ghost word = { reason_word };

    ghost carries = { is_reason };

    ghost within = { reason_in };

    ghost trip = { reason_trip };

    fn to_word(&self) -> u32 {
        word(KIND, 0, self.rejected.number(), self.cause.number())
    }

    fn of_word(w: u32) -> Option<Reason> {
        if kind_of(w) != KIND || number_of(w) != 0 {
            return None;
        }
        let rejected = Rejected::of_number(role_of(w))?;
        let cause = Cause::of_number(tail_of(w))?;
        Some(Reason { rejected, cause })
    }
}

// What a call answers.
use crate::lost::Lost;
use crate::received::Received;
use crate::refusal::Refusal;
use crate::served::Served;

#[derive(Clone, Copy, PartialEq, Eq, Debug)]
pub enum Answer {
    Refused(Refusal),
    // 0: there is nothing to tell.
    Done,
    // The query number of a registration.
    Query(u32),
    // The ports at which a copy was put, and those where it did not fit.
    Masks { reached: u64, missed: u64 },
    Served(Served),
    Received(Received),
    Lost(Lost),
}

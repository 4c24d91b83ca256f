// Why a record was not put behind all others.

#[derive(Clone, Copy, PartialEq, Eq, Debug)]
pub enum PutLastError {
    // Its key is not above theirs.
    NotAbove,
    // The table holds as many records as it can.
    Full,
}

// Why a record did not enter a table.

#[derive(Clone, Copy, PartialEq, Eq, Debug)]
pub enum InsertError {
    // A record with its key stood already, and stays.
    Standing,
    // The table holds as many records as it can.
    Full,
}

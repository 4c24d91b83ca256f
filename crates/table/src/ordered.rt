// The table: records that its owner keeps in ascending order of their keys.
ghost use Rattle.std.specs.Prelude.{◌≤◌, vec_len, vec_capacity};

mod edits;
mod reads;

// At most LIMIT records, in memory that is taken once, when the table is made; a map would take some at each insertion.
// Whoever owns a table keeps it in ascending order: every call but `push` leaves an ascending table ascending. `Sorted`
// is a table that ascends by its type.
#[derive(Drop)]
pub struct Table<R, const LIMIT: usize> {
    pub(crate) records: Vec<R>,
    ghost few: { vec_len records ≤ LIMIT },
    ghost room: { LIMIT ≤ vec_capacity records },
}

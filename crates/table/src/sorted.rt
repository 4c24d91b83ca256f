// A table that ascends by its type.
ghost use Rattle.std.specs.Prelude.{◌≡◌, true};
ghost use Rattle.table.specs.Items.{items};
ghost use Rattle.table.specs.Ordered.{ascending};

use crate::ordered::Table;
use crate::record::Record;

mod edits;
mod reads;

// At most LIMIT records, ascending by their keys, in memory that is taken once, when it is made. As its records ascend,
// a search need not look at each of them.
#[derive(Drop)]
pub struct Sorted<R: Record, const LIMIT: usize> {
    pub(crate) table: Table<R, LIMIT>,
    ghost rising: { ascending R.Key.Key.less R.keyed (items table) ≡ true },
}

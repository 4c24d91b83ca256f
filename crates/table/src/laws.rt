// The laws of ordered records; the function's contract is a theorem.
ghost use Rattle.std.specs.Prelude.{◌≡◌, ℕ, ◌<◌, true, length, ◌≢◌, slice_index_or};
ghost use Rattle.table.specs.Ordered.{ascending};

use crate::record::Record;

// In ascending order no key stands twice.
pub fn no_key_twice<R: Record>(records: &[R])
    ensures { ascending R.Key.Key.less R.keyed records.now ≡ true → (i j : ℕ) (d : R) → i < j → j < length records.now → R.keyed (slice_index_or records.now i d) ≢ R.keyed (slice_index_or records.now j d) }
{}

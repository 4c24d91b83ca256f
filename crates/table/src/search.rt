// Where a key stands among records.
ghost use Rattle.table.specs.Ordered.{Found};

use crate::key::Key;
use crate::record::Record;
use std::cmp::Ordering;

// The place of the record with this key, or else the place before which it belongs. It answers for records that may
// stand in any order, where no halving search finds the first one whose key is not below.
pub fn find<R: Record>(records: &[R], key: &R::Key) -> Result<usize, usize>
    ensures { Found R.Key.Key.less R.keyed records.now key.now result }
{
    for (i, x) in records.iter().enumerate() {
        match x.key().compare(key) {
            Ordering::Less => {}
            Ordering::Equal => return Ok(i),
            Ordering::Greater => return Err(i),
        }
    }
    Err(records.len())
}

// Where a key stands among records that ascend, found the sooner, the nearer to the front it stands.
ghost use Rattle.std.specs.Prelude.{◌≡◌, ◌<◌, ◌≤◌, length, true};
ghost use Rattle.std.specs.List.{AllWithin, HoldsAt};
ghost use Rattle.table.specs.Ordered.{Found, ascending};

use crate::key::Key;
use crate::record::Record;
use std::cmp::Ordering;

// The place of the record with this key, or else the place before which it belongs. It looks at the places 0, 1, 3, 7
// and so on until a record is not below the key, and halves what lies between the last two of them: where the answer is
// k, it compares about 2 log2 (k + 1) keys, however many records follow, and one alone where k is 0.
pub(crate) fn find_ascending<R: Record>(records: &[R], key: &R::Key) -> Result<usize, usize>
    requires { ascending R.Key.Key.less R.keyed records.now ≡ true }
    ensures { Found R.Key.Key.less R.keyed records.now key.now result }
{
    let mut low = 0;
    let mut probe: usize = 0;
    while let Some(x) = records.get(probe) {
        match x.key().compare(key) {
            Ordering::Less => {
                low = probe + 1;
                probe = probe.saturating_add(low);
            }
            Ordering::Equal => return Ok(probe),
            Ordering::Greater => return find_between(records, low, probe, key),
        }
    }
    find_between(records, low, records.len(), key)
}

// The same, where the records before low are known to be below the key, and the one at high, if there is one, above it.
fn find_between<R: Record>(
    records: &[R],
    low: usize,
    high: usize,
    key: &R::Key,
) -> Result<usize, usize>
    requires ascends { ascending R.Key.Key.less R.keyed records.now ≡ true }
    requires forward { low ≤ high }
    requires within { high ≤ length records.now }
    requires before { AllWithin (λ y. R.Key.Key.less (R.keyed y) key.now ≡ true) records.now 0 low }
    requires behind { high < length records.now → HoldsAt (λ y. R.Key.Key.less key.now (R.keyed y) ≡ true) records.now high }
    ensures { Found R.Key.Key.less R.keyed records.now key.now result }
{
    match records[low..high].binary_search_by(|x| x.key().compare(key)) {
        Ok(at) => Ok(low + at),
        Err(at) => Err(low + at),
    }
}

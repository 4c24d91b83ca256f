// A table is made, and read.
ghost use Rattle.std.specs.Prelude.{◌≡◌, true, [], IfOk};
ghost use Rattle.table.specs.Items.{items};
ghost use Rattle.table.specs.Ordered.{ascending, looked_up, stands};

use crate::key::Key;
use crate::ordered::Table;
use crate::record::Record;
use crate::search::find;
use std::alloc::{AllocError, Global};

impl<R, const LIMIT: usize> Table<R, LIMIT> {
    pub fn new(heap: Global) -> Result<Table<R, LIMIT>, AllocError>
        ensures { IfOk result (λ t. items t ≡ []) }
    {
        let records = Vec::with_capacity(heap, LIMIT)?;
        Ok(Table { records })
    }

    pub fn as_slice(&self) -> &[R]
        ensures { result.now ≡ items self.now }
    {
        self.records.as_slice()
    }
}

impl<R: Record, const LIMIT: usize> Table<R, LIMIT> {
    // Whether a record with this key stands.
    pub fn contains(&self, key: &R::Key) -> bool
        ensures { ascending R.Key.Key.less R.keyed (items self.now) ≡ true → result ≡ stands R.Key.Key.less R.keyed key.now (items self.now) }
    {
        find(self.records.as_slice(), key).is_ok()
    }

    // The record with this key.
    pub fn get(&self, key: &R::Key) -> Option<R>
    where
        R: Copy,
        ensures { ascending R.Key.Key.less R.keyed (items self.now) ≡ true → result ≡ looked_up R.Key.Key.less R.keyed key.now (items self.now) }
    {
        let records = self.records.as_slice();
        match find(records, key) {
            Ok(at) => Some(records[at]),
            Err(_) => None,
        }
    }
}

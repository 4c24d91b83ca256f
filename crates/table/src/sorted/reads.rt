// A table that ascends is made, and read.
ghost use Rattle.std.specs.Prelude.{◌≡◌, [], ◌∷◌, ◌++◌, IfOk};
ghost use Rattle.table.specs.InOrder.{in_order};
ghost use Rattle.table.specs.Ordered.{Found, ascending, looked_up, stands};

use crate::gallop::find_ascending;
use crate::key::Key;
use crate::ordered::Table;
use crate::record::Record;
use crate::sorted::Sorted;
use std::alloc::{AllocError, Global};

impl<R: Record, const LIMIT: usize> Sorted<R, LIMIT> {
    pub fn new(heap: Global) -> Result<Sorted<R, LIMIT>, AllocError>
        ensures { IfOk result (λ s. in_order s ≡ []) }
    {
        let table = Table::new(heap)?;
        Ok(Sorted { table })
    }

    pub fn as_slice(&self) -> &[R]
        ensures { result.now ≡ in_order self.now }
    {
        self.table.as_slice()
    }

    // The place of the record with this key, or else the place before which it belongs.
    pub(crate) fn place(&self, key: &R::Key) -> Result<usize, usize>
        ensures { Found R.Key.Key.less R.keyed (in_order self.now) key.now result }
    {
        find_ascending(self.as_slice(), key)
    }

    // Whether the record's key is above all others.
    pub(crate) fn may_end(&self, x: &R) -> bool
        ensures { result ≡ ascending R.Key.Key.less R.keyed (in_order self.now ++ (x.now ∷ [])) }
    {
        match self.as_slice().last() {
            Some(last) => last.key().compare(&x.key()).is_lt(),
            None => true,
        }
    }

    // Whether a record with this key stands.
    pub fn contains(&self, key: &R::Key) -> bool
        ensures { result ≡ stands R.Key.Key.less R.keyed key.now (in_order self.now) }
    {
        self.place(key).is_ok()
    }

    // The record with this key.
    pub fn get(&self, key: &R::Key) -> Option<R>
    where
        R: Copy,
        ensures { result ≡ looked_up R.Key.Key.less R.keyed key.now (in_order self.now) }
    {
        match self.place(key) {
            Ok(at) => Some(self.as_slice()[at]),
            Err(_) => None,
        }
    }
}

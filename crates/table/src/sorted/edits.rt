// Records enter a table that ascends, and leave it.
ghost use Rattle.std.specs.Prelude.{◌≡◌, [], ◌∷◌, ◌++◌, filter};
ghost use Rattle.std.specs.List.{items_where_true};
ghost use Rattle.table.specs.Entries.{after, answer, last_answer};
ghost use Rattle.table.specs.InOrder.{in_order};
ghost use Rattle.table.specs.Ordered.{entered, stands, without};

use crate::insert_error::InsertError;
use crate::keep::Keep;
use crate::put_last_error::PutLastError;
use crate::record::Record;
use crate::sorted::Sorted;

impl<R: Record + Drop, const LIMIT: usize> Sorted<R, LIMIT> {
    // Every record goes.
    pub fn clear(&mut self)
        ensures { in_order self.new ≡ [] }
    {
        self.table.clear();
    }

    // Puts the record behind all others, unless its key is not above theirs or the table is full.
    pub fn put_last(&mut self, x: R) -> Result<(), PutLastError>
        ensures answer { result ≡ last_answer R.Key.Key.less R.keyed LIMIT x (in_order self.old) }
        ensures items { in_order self.new ≡ after result (in_order self.old ++ (x ∷ [])) (in_order self.old) }
    {
        if !self.may_end(&x) {
            return Err(PutLastError::NotAbove);
        }
        if self.table.push(x) {
            Ok(())
        } else {
            Err(PutLastError::Full)
        }
    }

    // Enters the record in its place, unless its key stands already or the table is full.
    pub fn insert(&mut self, x: R) -> Result<(), InsertError>
        ensures answer { result ≡ answer R.Key.Key.less R.keyed LIMIT x (in_order self.old) }
        ensures items { in_order self.new ≡ after result (entered R.Key.Key.less R.keyed x (in_order self.old)) (in_order self.old) }
    {
        match self.place(&x.key()) {
            Ok(_) => Err(InsertError::Standing),
            Err(at) => {
                if self.table.insert_at(at, x) {
                    Ok(())
                } else {
                    Err(InsertError::Full)
                }
            }
        }
    }

    // Takes away the record with this key, and answers whether there was one.
    pub fn remove(&mut self, key: &R::Key) -> bool
        ensures answer { result ≡ stands R.Key.Key.less R.keyed key.now (in_order self.old) }
        ensures items { in_order self.new ≡ without R.Key.Key.less R.keyed key.now (in_order self.old) }
    {
        match self.place(key) {
            Ok(at) => {
                self.table.remove_at(at);
                true
            }
            Err(_) => false,
        }
    }

    // Keeps the records that pass, in their order.
    pub fn retain<P: Keep<R>>(&mut self, which: &P)
        ensures items { in_order self.new ≡ filter (P.Keep.keeps which.now) (in_order self.old) }
    {
        self.table.retain(which);
    }

    // Keeps the records that are marked true, in their order: the first mark is that of the first record, and a record
    // with no mark goes.
    pub fn retain_marked(&mut self, marks: &[bool])
        ensures { in_order self.new ≡ items_where_true marks.now (in_order self.old) }
    {
        self.table.retain_marked(marks);
    }

    // The records of another table take the place of its own.
    pub fn copy_from(&mut self, other: &Sorted<R, LIMIT>)
    where
        R: Copy,
        ensures { in_order self.new ≡ in_order other.now }
    {
        self.table.copy_from(&other.table);
    }
}

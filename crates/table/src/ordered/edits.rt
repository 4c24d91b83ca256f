// Records enter a table and leave it.
ghost use Rattle.std.specs.Prelude.{◌≡◌, ◌<◌, ◌≤◌, true, [], ◌∷◌, ◌++◌, length, if◌then◌else◌, filter, nat_lt};
ghost use Rattle.std.specs.List.{insert, items_where_true, remove};
ghost use Rattle.table.specs.Entries.{after, answer};
ghost use Rattle.table.specs.Items.{items};
ghost use Rattle.table.specs.Ordered.{ascending, entered, stands, without};

use crate::insert_error::InsertError;
use crate::keep::Keep;
use crate::key::Key;
use crate::ordered::Table;
use crate::record::Record;
use crate::search::find;

impl<R: Drop, const LIMIT: usize> Table<R, LIMIT> {
    // Every record goes.
    pub fn clear(&mut self)
        ensures { items self.new ≡ [] }
    {
        self.records.clear();
    }

    // Puts the record behind all others, unless the table is full; the answer is whether there was room. Whoever puts
    // records so puts them in ascending order.
    pub fn push(&mut self, x: R) -> bool
        ensures answer { result ≡ nat_lt (length (items self.old)) LIMIT }
        ensures items { items self.new ≡ (if result then items self.old ++ (x ∷ []) else items self.old) }
    {
        let room = self.records.len() < LIMIT;
        if room {
            self.records.push_reserved(x);
        }
        room
    }

    // Puts the record before the one at this place, unless the table is full; the answer is whether there was room.
    pub(crate) fn insert_at(&mut self, at: usize, x: R) -> bool
        requires { at ≤ length (items self.old) }
        ensures answer { result ≡ nat_lt (length (items self.old)) LIMIT }
        ensures items { items self.new ≡ (if result then insert (items self.old) at x else items self.old) }
    {
        if self.records.len() >= LIMIT {
            return false;
        }
        // There is room, so it is never refused.
        let _ = self.records.insert(at, x);
        true
    }

    // Keeps the records that are marked true, in their order: the first mark is that of the first record, and a record
    // with no mark goes.
    pub fn retain_marked(&mut self, marks: &[bool])
        ensures { items self.new ≡ items_where_true marks.now (items self.old) }
    {
        let mut marks = marks.iter();
        self.records
            .retain(|_| marks.next().copied().unwrap_or(false));
    }

    // The records of another table take the place of its own.
    pub fn copy_from(&mut self, other: &Table<R, LIMIT>)
    where
        R: Copy,
        ensures { items self.new ≡ items other.now }
    {
        self.clear();
        // There is room for all that another table holds, so it is never refused.
        let _ = self.records.extend_from_slice(other.records.as_slice());
    }

    // Takes away the record at this place.
    pub(crate) fn remove_at(&mut self, at: usize)
        requires { at < length (items self.old) }
        ensures { items self.new ≡ remove (items self.old) at }
    {
        drop(self.records.remove(at));
    }
}

impl<R: Record + Drop, const LIMIT: usize> Table<R, LIMIT> {
    // Enters the record in its place, unless its key stands already or the table is full.
    pub fn insert(&mut self, x: R) -> Result<(), InsertError>
        ensures answer { ascending R.Key.Key.less R.keyed (items self.old) ≡ true → result ≡ answer R.Key.Key.less R.keyed LIMIT x (items self.old) }
        ensures items { items self.new ≡ after result (entered R.Key.Key.less R.keyed x (items self.old)) (items self.old) }
        ensures rising { ascending R.Key.Key.less R.keyed (items self.old) ≡ true → ascending R.Key.Key.less R.keyed (items self.new) ≡ true }
    {
        match find(self.as_slice(), &x.key()) {
            Ok(_) => Err(InsertError::Standing),
            Err(at) => {
                if self.insert_at(at, x) {
                    Ok(())
                } else {
                    Err(InsertError::Full)
                }
            }
        }
    }

    // Takes away the record with this key, and answers whether there was one.
    pub fn remove(&mut self, key: &R::Key) -> bool
        ensures answer { ascending R.Key.Key.less R.keyed (items self.old) ≡ true → result ≡ stands R.Key.Key.less R.keyed key.now (items self.old) }
        ensures items { ascending R.Key.Key.less R.keyed (items self.old) ≡ true → items self.new ≡ without R.Key.Key.less R.keyed key.now (items self.old) }
        ensures rising { ascending R.Key.Key.less R.keyed (items self.old) ≡ true → ascending R.Key.Key.less R.keyed (items self.new) ≡ true }
    {
        match find(self.as_slice(), key) {
            Ok(at) => {
                self.remove_at(at);
                true
            }
            Err(_) => false,
        }
    }

    // Keeps the records that pass, in their order.
    pub fn retain<P: Keep<R>>(&mut self, which: &P)
        ensures items { items self.new ≡ filter (P.Keep.keeps which.now) (items self.old) }
        ensures rising { ascending R.Key.Key.less R.keyed (items self.old) ≡ true → ascending R.Key.Key.less R.keyed (items self.new) ≡ true }
    {
        self.records.retain(|x| which.keep(x));
    }
}

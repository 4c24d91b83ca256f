// A catalogue is made, asked and changed.
ghost use Rattle.std.specs.Prelude.{◌≡◌, [], IfOk};
ghost use Rattle.names.specs.Entries.{entries_of};
ghost use Rattle.names.specs.Names.{name_less, name_of};
ghost use Rattle.table.specs.Entries.{after, answer};
ghost use Rattle.table.specs.Ordered.{entered, looked_up, stands, without};

use crate::catalogue::Catalogue;
use crate::name::Name;
use crate::named::Named;
use std::alloc::{AllocError, Global};
use table::{InsertError, Sorted};

impl Catalogue {
    pub fn new(heap: Global) -> Result<Catalogue, AllocError>
        ensures { IfOk result (λ c. entries_of c ≡ []) }
    {
        Ok(Catalogue {
            entries: Sorted::new(heap)?,
        })
    }

    pub fn get(&self, name: &Name) -> Option<Named>
        ensures { result ≡ looked_up name_less name_of name.now (entries_of self.now) }
    {
        self.entries.get(name)
    }

    pub fn insert(&mut self, x: Named) -> Result<(), InsertError>
        ensures answer { result ≡ answer name_less name_of 200 x (entries_of self.old) }
        ensures entries { entries_of self.new ≡ after result (entered name_less name_of x (entries_of self.old)) (entries_of self.old) }
    {
        self.entries.insert(x)
    }

    pub fn remove(&mut self, name: &Name) -> bool
        ensures answer { result ≡ stands name_less name_of name.now (entries_of self.old) }
        ensures entries { entries_of self.new ≡ without name_less name_of name.now (entries_of self.old) }
    {
        self.entries.remove(name)
    }
}

// What stands under a name.
ghost use Rattle.names.specs.Names.{name_of};

use crate::name::Name;
use table::Record;

#[derive(Clone, Copy)]
pub struct Named {
    pub name: Name,
    pub value: u32,
}

impl Record for Named {
    type Key = Name;

    ghost keyed = { name_of };

    fn key(&self) -> Name {
        self.name
    }
}

// Records by name.
use crate::named::Named;
use table::Sorted;

mod calls;

const MOST_RECORDS: usize = 200;

// At most MOST_RECORDS records, ascending by their names.
#[derive(Drop)]
pub struct Catalogue {
    pub(crate) entries: Sorted<Named, MOST_RECORDS>,
}

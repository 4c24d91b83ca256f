// One ordered table, for every record whose keys have a total order.
#![tactic(auto)]

// Keys and their order.
mod key;

pub use key::Key;

// Records, and which of their fields are the key.
mod record;

pub use record::Record;

// Where a key stands among records.
mod search;

pub use search::find;

// The same among records that ascend, soon where it stands near the front.
mod gallop;

// Why a record did not enter a table.
mod insert_error;

pub use insert_error::InsertError;

// Why a record was not put behind all others.
mod put_last_error;

pub use put_last_error::PutLastError;

// Tests on records.
mod keep;

pub use keep::Keep;

// The table.
mod ordered;

pub use ordered::Table;

// A table that ascends by its type.
mod sorted;

pub use sorted::Sorted;

// The laws of ordered records.
mod laws;

pub use laws::no_key_twice;

// Tables of plain numbers, and one that ascends.
#[cfg(test)]
mod tests;

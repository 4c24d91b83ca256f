// Worked examples, run: frames written by hand from the format, good and bad; books.
#![tactic(auto)]

// What a buffer has where nothing was written.
#[cfg(test)]
pub(crate) const UNTOUCHED: u8 = 0xA5;

// Octets that are no frame.
#[cfg(test)]
mod malformed;

// Frames read and written again, and records that are refused.
#[cfg(test)]
mod rewritten;

// Books filled to the brim, and numbers going round.
#[cfg(test)]
mod books;

// Books against a plain model, edit by edit.
#[cfg(test)]
mod models;

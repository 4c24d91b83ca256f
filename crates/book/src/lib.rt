// The book of members and rules.
#![tactic(auto)]

// Tables are filled with what the words of a run carry.
mod filling;

// The rules of all members but one.
mod others;

// Who stays when a member takes its seat.
mod stayers;

// Why a rule did not enter.
mod rule_refusal;

pub use rule_refusal::RuleRefusal;

// What a frame of the registrar tells of a change.
mod change;

pub use change::Change;

// Whom a message is for, and who receives it.
mod audience;

pub use audience::{Audience, Envelope};

mod matching;

pub use matching::matches;

// The book.
mod book;

pub use book::Book;

// The laws of the book.
mod laws;

pub use laws::{book_laws, octets_laws, recipients_law, worked_examples};

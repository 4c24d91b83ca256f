// Words of 32 bits, the records that they carry, and the book as a run of words: the lowest layer of the wire format.
#![tactic(auto)]

// The fault of a word.
mod fault;

pub use fault::WordFault;

// The four fields of a word, and words among octets.
mod word;

pub use word::{WORD_LEN, word_at};

// What a record has that a word carries.
mod in_word;

pub use in_word::InWord;

// A module that holds a number, at its port.
mod member;

pub use member::Member;

// A module that asks for a number.
mod applicant;

pub use applicant::Applicant;

// The Module ID.
mod module_id;

pub use module_id::{ModuleId, UNIT};

// Subscriptions and invitations.
mod rule_kind;

pub use rule_kind::RuleKind;

mod rule;

pub use rule::Rule;

// Members and rules as records of the ordered table.
mod keys;

// Why a request was rejected.
mod reason;

pub use reason::{Cause, Reason, Rejected};

// The three words of a message.
mod message_kind;

pub use message_kind::MessageKind;

mod head;

pub use head::{MessageHead, content_length};

// The names of kinds in plain words.
mod names;

// How many members and rules a book has.
mod tally;

pub use tally::{MOST_MEMBERS, MOST_RULES, Tally};

// A book as it stands in a frame.
mod book_run;

pub use book_run::{BookRun, Words};

// The laws of this layer.
mod laws;

pub use laws::{book_laws, word_laws};

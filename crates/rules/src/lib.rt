// The rules of the message space: what every call does and answers, as definitions, and what holds over any run of
// calls. The code here is the answers; the rest stands in specs/ and is proved in proofs/.
#![tactic(auto)]

// Why a call is refused.
mod refusal;

pub use refusal::Refusal;

// What the registrar made of the frame that it served.
mod served;

pub use served::Served;

// What an end made of the frame that it received.
mod received;

pub use received::Received;

// What was lost.
mod lost;

pub use lost::Lost;

// What a module end is: out, asked or in.
mod standing;

pub use standing::Standing;

// What a member asks about one of its rules.
mod request;

pub use request::Request;

// What a call answers.
mod answer;

pub use answer::Answer;

// What holds over any run of calls.
mod laws;

pub use laws::promises;

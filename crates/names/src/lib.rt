// Octet names as keys of the ordered table: 1 to 32 octets in octet order, shorter first where one begins the other.
#![tactic(auto)]

// A name.
mod name;

pub use name::Name;

// What stands under a name.
mod named;

pub use named::Named;

// Records by name.
mod catalogue;

pub use catalogue::Catalogue;

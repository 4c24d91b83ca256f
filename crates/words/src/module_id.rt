// The Module ID, by which frames refer to a module.

mod codec;

pub use codec::UNIT;

// A module by its number and role; all modules are of unit 0.
#[derive(Clone, Copy, PartialEq, Eq, Debug)]
pub struct ModuleId {
    pub number: u8,
    pub role: u8,
}

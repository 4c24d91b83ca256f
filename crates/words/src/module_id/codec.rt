// A Module ID to and from a reference: number + 256 × unit + 16,777,216 × role.
ghost use Rattle.std.specs.Prelude.{◌≡◌, Some, None};
ghost use Rattle.words.specs.Records.{id_of, read_module, valid_module};

use crate::module_id::ModuleId;

// All modules are of this unit.
pub const UNIT: u8 = 0;

const UNIT_STEP: u32 = 256;

const UNITS: u32 = 65_536;

const ROLE_STEP: u32 = 16_777_216;

impl ModuleId {
    // Whether such a module may exist.
    pub fn is_valid(&self) -> bool
        ensures { result ≡ valid_module self.now }
    {
        self.number >= 1 && self.role >= 1
    }

    pub fn to_reference(&self) -> u32
        ensures { result ≡ id_of self.now }
    {
        u32::from(self.number) + UNIT_STEP * u32::from(UNIT) + ROLE_STEP * u32::from(self.role)
    }

    // The module that a reference names, if it is a Module ID of unit 0; `try_from` a number would not say that it is a
    // reference.
    pub fn from_reference(reference: u32) -> Option<ModuleId>
        ensures { result ≡ read_module reference }
    {
        if reference / UNIT_STEP % UNITS != u32::from(UNIT) {
            return None;
        }
        let module = ModuleId {
            number: (reference % UNIT_STEP) as u8,
            role: (reference / ROLE_STEP) as u8,
        };
        module.is_valid().then_some(module)
    }
}

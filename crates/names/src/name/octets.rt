// A name from its octets, to them, and its place in their order.
ghost use Rattle.std.specs.Prelude.{◌≡◌, ◌<◌, ◌≤◌, ◌⊎◌, length, MatchOption};
ghost use Rattle.names.specs.Names.{name_less, octets};
ghost use Rattle.table.proofs.Lexical.{by_digits};
ghost use Rattle.names.specs.Apart.{apart};

use crate::name::{LONGEST, Name};
use std::cmp::Ordering;
use table::Key;

impl Name {
    // The name of these octets; none if there are no octets or more than 32, which no caller tells apart.
    pub fn new(text: &[u8]) -> Option<Name>
        ensures { MatchOption result ((length text.now ≡ 0) ⊎ (32 < length text.now)) (λ n. octets n ≡ text.now) }
    {
        let len = text.len();
        if len == 0 || len > LONGEST {
            return None;
        }
        let mut bytes = [0u8; LONGEST];
        bytes[..len].copy_from_slice(text);
        Some(Name { bytes, len })
    }

    pub fn as_octets(&self) -> &[u8]
        ensures octets { result.now ≡ octets self.now }
        ensures some { 0 < length (octets self.now) }
        ensures most { length (octets self.now) ≤ 32 }
    {
        &self.bytes[..self.len]
    }
}

impl Key for Name {
    ghost less = { name_less };

    ghost order = { by_digits octets apart };

    // A derived order would go by the zeros behind a shorter name, and then by the length.
    fn compare(&self, other: &Name) -> Ordering {
        self.as_octets().cmp(&other.as_octets())
    }
}

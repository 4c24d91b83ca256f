// Records, and which of their fields are the key.
ghost use Rattle.std.specs.Prelude.{◌≡◌};

use crate::key::Key;

pub trait Record: Sized {
    type Key: Key + Copy;

    ghost keyed: { Self → Self.Key };

    fn key(&self) -> Self::Key
        ensures { result ≡ keyed self.now };
}

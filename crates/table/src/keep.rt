// Tests on records.
ghost use Rattle.std.specs.Prelude.{◌≡◌, Bool};

// A test that names the records which are to stay.
pub trait Keep<R> {
    ghost keeps: { Self → R → Bool };

    fn keep(&self, x: &R) -> bool
        ensures { result ≡ keeps self.now x.now };
}

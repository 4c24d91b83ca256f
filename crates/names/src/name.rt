// A name of 1 to 32 octets.
ghost use Rattle.std.specs.Prelude.{◌≡◌, ◌<◌, ◌≤◌, length};
ghost use Rattle.names.specs.Plain.{Blank};

mod octets;

const LONGEST: usize = 32;

// The octets of the name come first, and the rest are 0, so that equal names are equal values.
// An array, and no slice or Vec: tables copy their keys, and take no memory for them. Ghost fields, and no model: a
// struct that holds a struct with a model is not copied when it is passed by value and used again.
#[derive(Clone, Copy)]
pub struct Name {
    pub(crate) bytes: [u8; LONGEST],
    pub(crate) len: usize,
    ghost some: { 0 < len },
    ghost fits: { len ≤ 32 },
    ghost long: { length bytes ≡ 32 },
    ghost blank: { Blank bytes len },
}

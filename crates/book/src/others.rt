// The rules of all members but one.
ghost use Rattle.book.specs.Sound.{not_of};

use table::Keep;
use words::Rule;

#[derive(Clone, Copy)]
pub(crate) struct Others {
    pub(crate) number: u8,
}

impl Keep<Rule> for Others {
    ghost keeps = { λ o. not_of o.number };

    fn keep(&self, x: &Rule) -> bool {
        x.number != self.number
    }
}

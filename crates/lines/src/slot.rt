// The slot line: a port has 4 places, and a waiting frame takes one.
ghost use Rattle.lines.specs.Rules.{slots};
ghost use Rattle.lines.specs.RulesLemmas.{slots_lawful, slots_packed};

use crate::fitting::Fitting;
use crate::port_line::PortLine;
use crate::queue::Queue;
use crate::sizes::SLOTS;

pub type SlotLine = PortLine<Slots>;

// The rule of the slot line, as a type: no line needs a value of it.
pub struct Slots;

impl Fitting for Slots {
    ghost rule = { slots };

    ghost lawful = { slots_lawful };

    ghost within = { λ fs n s h e. slots_packed fs n s h e };

    fn fits(queue: &Queue, _new: usize) -> bool {
        queue.count() < SLOTS
    }
}

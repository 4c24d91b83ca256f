// The packed line: a port has 4,096 octets, and a waiting frame takes its length and 2 more.
ghost use Rattle.lines.specs.Rules.{packed};
ghost use Rattle.lines.specs.RulesLemmas.{packed_lawful};

use crate::fitting::Fitting;
use crate::port_line::PortLine;
use crate::queue::Queue;
use crate::sizes::{OVERHEAD, PORT_OCTETS};

pub type PackedLine = PortLine<Packed>;

// The rule of the packed line, as a type: no line needs a value of it.
pub struct Packed;

impl Fitting for Packed {
    ghost rule = { packed };

    ghost lawful = { packed_lawful };

    ghost within = { λ fs n s h e. e };

    fn fits(queue: &Queue, new: usize) -> bool {
        queue.taken_up() + (new + OVERHEAD) <= PORT_OCTETS
    }
}

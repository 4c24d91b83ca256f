// A line over a fitting rule: a queue for each port.
ghost use Rattle.std.specs.Prelude.{◌≡◌, vec_len};
ghost use Rattle.line.specs.Lines.{port_count};

use crate::queue::Queue;
use std::marker::PhantomData;

mod calls;

#[derive(Drop)]
pub struct PortLine<F> {
    queues: Vec<Queue>,
    rule: PhantomData<F>,
    ghost each: { vec_len queues ≡ port_count },
}

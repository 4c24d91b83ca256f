// One frame for several ports.
ghost use Rattle.std.specs.Prelude.{◌≡◌};
ghost use Rattle.line.specs.Offers.{missed, missed_all, offered, offered_all, port_bit};

use crate::line::Line;

const MASK_BITS: usize = u64::BITS as usize;

fn port_bit(port: usize) -> u64
    ensures { result ≡ port_bit port }
{
    if port < MASK_BITS { 1 << port } else { 0 }
}

// The frame is put at the port; the answer is the port's mask if it did not fit, else 0.
pub fn offer<L: Line>(line: &mut L, port: usize, frame: &[u8]) -> u64
    ensures answer { result ≡ missed (L.fitting line.old) (L.waiting line.old) port frame.now }
    ensures queued { L.waiting line.new ≡ offered (L.fitting line.old) (L.waiting line.old) port frame.now }
    ensures rule { L.fitting line.new ≡ L.fitting line.old }
{
    if line.put(port, frame) {
        0
    } else {
        port_bit(port)
    }
}

// The frame is offered to each port of the list in turn; the answer is the mask of those where it did not fit.
pub fn offer_all<L: Line>(line: &mut L, ports: &[usize], frame: &[u8]) -> u64
    ensures answer { result ≡ missed_all (L.fitting line.old) (L.waiting line.old) ports.now frame.now }
    ensures queued { L.waiting line.new ≡ offered_all (L.fitting line.old) (L.waiting line.old) ports.now frame.now }
    ensures rule { L.fitting line.new ≡ L.fitting line.old }
{
    let mut mask = 0;
    for port in ports {
        mask |= offer(line, *port, frame);
    }
    mask
}

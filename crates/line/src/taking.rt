// The oldest frame of a port is taken.
ghost use Rattle.std.specs.Prelude.{◌≡◌, length};
ghost use Rattle.line.specs.Lines.{after_take, copied, looked};

use crate::line::Line;

// The oldest frame of the port goes to the buffer's start and waits no more; the answer is its length. None where
// nothing waits or the buffer is too short.
pub fn take_oldest<L: Line>(line: &mut L, port: usize, buffer: &mut [u8]) -> Option<usize>
    ensures answer { result ≡ looked (L.waiting line.old port) (length buffer.old) }
    ensures copy { buffer.new ≡ copied (L.waiting line.old port) buffer.old }
    ensures queued { L.waiting line.new ≡ after_take (L.waiting line.old) port (length buffer.old) }
    ensures rule { L.fitting line.new ≡ L.fitting line.old }
{
    let length = line.look(port, buffer)?;
    line.remove(port);
    Some(length)
}

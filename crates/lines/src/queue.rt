// The frames of one port, one after another, in memory that is taken once.
ghost use Rattle.std.specs.Prelude.{◌≡◌, ◌≤◌, vec_len, vec_capacity};
ghost use Rattle.std.specs.List.{All, sum};
ghost use Rattle.lines.specs.Cuts.{IsLength};
ghost use Rattle.lines.specs.Rules.{taken_up};
ghost use Rattle.lines.specs.Sizes.{most_frames, port_octets};

mod edits;
mod reads;

// A list of frames would take memory at each put, so their octets lie in a row, beside their lengths.
#[derive(Drop)]
pub(crate) struct Queue {
    lengths: Vec<u16>,
    octets: Vec<u8>,
    ghost whole: { sum lengths.items ≡ vec_len octets },
    ghost sized: { All IsLength lengths.items },
    ghost fitting: { taken_up lengths.items ≤ port_octets },
    ghost places: { most_frames ≤ vec_capacity lengths },
    ghost room: { port_octets ≤ vec_capacity octets },
}

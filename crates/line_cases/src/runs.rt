// Long random runs of all calls.
use crate::model::Ruled;
use crate::pair::{Pair, ROOM};
use crate::random::Random;
use lines::{PackedLine, SlotLine};
use std::alloc::Global;
use std::iter::successors;
use std::process::Abort;
use std::test::Fail;

const TURNS: usize = 4_000;

// Few ports, so that they fill up; two of them no line has.
const RUN_PORTS: [usize; 6] = [0, 1, 7, 15, 16, 64];

// Often short, sometimes none, now and then of any length up to one past the longest: a number draws which.
fn pick_length(random: &mut Random) -> usize {
    match random.below(4) {
        0 => random.below(4),
        1 => random.below(60),
        _ => random.below(ROOM + 1),
    }
}

// Octets that count up from the first. Only memory is asked for, so it takes the heap and not the runtime.
fn counting(heap: Global, first: u8, length: usize) -> Result<Vec<u8>, Fail> {
    let octets = successors(Some(first), |octet| Some(octet.wrapping_add(1)));
    Ok(octets.take(length).collect(heap)?)
}

fn turn<R: Abort + AllocGlobal, L: Ruled>(
    pair: &mut Pair<R, L>,
    random: &mut Random,
) -> Result<(), Fail> {
    let port = RUN_PORTS[random.below(RUN_PORTS.len())];
    let length = pick_length(random);
    let octets = counting(pair.rt.alloc(), random.below(256) as u8, length)?;
    let frame = octets.as_slice();
    // A number draws the call: no switch that a caller sets.
    match random.below(9) {
        0 => pair.take(port, length)?,
        1 => pair.take(port, ROOM)?,
        2 => pair.remove(port),
        3 => pair.lose(port, random.below(6)),
        4 => pair.offer(port, frame)?,
        5 => pair.offer_all(&[port, 0, 15, port], frame)?,
        6 => pair.look(port, length)?,
        _ => pair.put(port, frame)?,
    }
    Ok(())
}

// What can be seen without a change: the oldest frame of each port, and what fits.
fn check_state<R: Abort + AllocGlobal, L: Ruled>(
    pair: &Pair<R, L>,
    length: usize,
) -> Result<(), Fail> {
    for port in &RUN_PORTS {
        pair.look(*port, ROOM)?;
        pair.fits(*port, length);
    }
    Ok(())
}

fn run<L: Ruled>(rt: &(impl Abort + AllocGlobal), seed: u64) -> Result<(), Fail> {
    let mut pair: Pair<_, L> = Pair::new(rt)?;
    let mut random = Random { state: seed };
    for _ in 0..TURNS {
        turn(&mut pair, &mut random)?;
        let length = pick_length(&mut random);
        check_state(&pair, length)?;
    }
    pair.drain()
}

#[test]
fn a_packed_line_answers_as_a_list_of_frames(rt: HostRuntime) -> Result<(), Fail> {
    run::<PackedLine>(&rt, 1)?;
    run::<PackedLine>(&rt, 2)
}

#[test]
fn a_slot_line_answers_as_a_list_of_frames(rt: HostRuntime) -> Result<(), Fail> {
    run::<SlotLine>(&rt, 3)?;
    run::<SlotLine>(&rt, 4)
}

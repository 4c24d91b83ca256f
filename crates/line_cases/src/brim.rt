// Ports filled to the brim.
use line::{FaultyLine, Line, offer_all, take_oldest};
use lines::{PackedLine, SlotLine};
use std::test::Fail;

const LONGEST: [u8; 1_012] = [0x5A; 1_012];

#[test]
fn four_longest_frames_leave_room_for_38_octets(rt: HostRuntime) -> Result<(), Fail> {
    let mut line = PackedLine::empty(rt.alloc())?;
    for _ in 0..4 {
        assert!(rt; line.put(3, &LONGEST));
    }
    assert!(rt; !line.fits(3, 39));
    assert!(rt; line.put(3, &[7; 38]));
    assert!(rt; !line.fits(3, 1));
    assert!(rt; line.fits(4, 1_012), "the other ports are empty");
    Ok(())
}

#[test]
fn a_packed_port_takes_1_365_frames_of_one_octet(rt: HostRuntime) -> Result<(), Fail> {
    let mut line = PackedLine::empty(rt.alloc())?;
    for _ in 0..1_365 {
        assert!(rt; line.put(15, &[9]));
    }
    assert!(rt; !line.put(15, &[9]));
    assert_eq!(rt; line.lose(15, 1_366), None);
    assert_eq!(rt; line.lose(15, 1_365), Some(9));
    assert!(rt; line.put(15, &[9]));
    Ok(())
}

#[test]
fn a_slot_port_takes_four_frames_of_any_length(rt: HostRuntime) -> Result<(), Fail> {
    let mut line = SlotLine::empty(rt.alloc())?;
    assert!(rt; line.put(0, &[1]) && line.put(0, &LONGEST) && line.put(0, &[3, 4]));
    assert!(rt; line.fits(0, 1_012));
    assert!(rt; line.put(0, &LONGEST));
    assert!(rt; !line.put(0, &[1]));
    assert_eq!(rt; line.lose(0, 0), None);
    assert_eq!(rt; line.lose(0, 3), Some(3));
    assert_eq!(rt; line.lose(0, 4), None);
    assert_eq!(rt; take_oldest(&mut line, 0, &mut [0; 1]), Some(1));
    assert_eq!(rt; take_oldest(&mut line, 0, &mut [0; 1_011]), None);
    assert_eq!(rt; take_oldest(&mut line, 0, &mut [0; 1_012]), Some(1_012));
    Ok(())
}

#[test]
fn no_line_has_a_port_16_or_a_frame_of_no_octets(rt: HostRuntime) -> Result<(), Fail> {
    let mut line = SlotLine::empty(rt.alloc())?;
    assert!(rt; !line.put(16, &[1]) && !line.put(usize::MAX, &[1]));
    assert!(rt; !line.put(0, &[]) && !line.put(0, &[1; 1_013]));
    line.remove(16);
    assert_eq!(rt; line.lose(16, 1), None);
    assert_eq!(rt;
        offer_all(&mut line, &[16, 2, 63, 64], &[1]),
        1 << 16 | 1 << 63
    );
    assert_eq!(rt;
        offer_all(&mut line, &[2, 2, 2, 2], &[1]),
        1 << 2,
        "the fourth finds no place"
    );
    Ok(())
}

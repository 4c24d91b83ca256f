// Octets that are no frame: the first fault, by number, place and layer.
use wire::read;

// The number, the place and the layer of the first fault.
fn fault(octets: &[u8]) -> Option<(u8, usize, u8)> {
    let code = read(octets).err()?.code();
    Some((code.number, code.place, code.layer.number()))
}

#[test]
fn too_few_octets_are_short(rt: HostRuntime) {
    assert_eq!(rt; fault(&[]), Some((1, 0, 2)));
    assert_eq!(rt; fault(&[0x13; 17]), Some((1, 0, 2)));
    assert_eq!(rt; fault(&[0x80; 11]), Some((1, 0, 2)));
}

#[test]
fn too_many_octets_are_a_fault(rt: HostRuntime) {
    assert_eq!(rt; fault(&[0x1C; 1013]), Some((4, 1, 2)));
    assert_eq!(rt; fault(&[0x80; 2000]), Some((6, 4, 1)));
}

#[test]
fn fixed_fields_are_checked_in_octet_order(rt: HostRuntime) {
    assert_eq!(rt; fault(&[0x20; 18]), Some((2, 0, 2)));
    assert_eq!(rt; fault(&[0x40; 18]), Some((2, 0, 2)));
    assert_eq!(rt; fault(&[0x1F; 18]), Some((3, 0, 2)));
    assert_eq!(rt; fault(&[0xB0; 12]), Some((3, 0, 2)));
    assert_eq!(rt;
        fault(b"\x1C\x02\x00\x01\x00\x01\x00\x00\x00\x00\x00\x00\x00\x00\x00\x00\x00\x00"),
        Some((4, 1, 2))
    );
    assert_eq!(rt;
        fault(b"\x1C\x01\x00\x01\x00\x01\x00\x00\x00\x00\x00\x00\x00\x00\x00\x00\x00\x00"),
        Some((4, 2, 2))
    );
    assert_eq!(rt;
        fault(b"\x1C\x01\x00\x00\x00\x01\x00\x00\x00\x00\x00\x00\x00\x00\x00\x00\x00\x00"),
        Some((4, 5, 2))
    );
    assert_eq!(rt;
        fault(b"\x1C\x01\x00\x00\x00\x00\x00\x01\x00\x00\x00\x00\x00\x00\x00\x00\x00\x00"),
        Some((4, 12, 2))
    );
    assert_eq!(rt;
        fault(b"\x1C\x01\x00\x00\x01\x00\x00\x01\x00\x00\x00\x01\x1D\x00\x00\x00\x00\x00"),
        Some((5, 6, 2))
    );
    assert_eq!(rt;
        fault(b"\x1C\x01\x00\x00\x01\x00\x00\x00\x00\x00\x00\x01\x1D\x00\x00\x00\x00\x00"),
        Some((7, 4, 2))
    );
    assert_eq!(rt;
        fault(b"\x1C\x01\x00\x00\x00\x00\x00\x00\x00\x00\x00\x01\x1D\x00\x00\x00\x00\x00"),
        Some((7, 8, 2))
    );
}

// Members 1 and 3 of role 5 at ports 4 and 2, then a word that does not fit.
#[test]
fn a_wrong_word_of_a_book_is_blamed_at_its_octet(rt: HostRuntime) {
    let mut frame =
        *b"\x1C\x01\x00\x00\x00\x00\x00\x0C\x00\x00\x00\x00\x1D\x00\x00\x00\x00\x00\x10\x10\x50\x04\x10\x30\x50\x02\x20\x30\x00\x07";
    assert_eq!(rt; fault(&frame), None);
    frame[27] = 0x20;
    assert_eq!(rt;
        fault(&frame),
        Some((6, 26, 1)),
        "a rule of number 2, which no member has"
    );
    frame[26] = 0x10;
    assert_eq!(rt;
        fault(&frame),
        Some((6, 26, 1)),
        "a member of number 2 after number 3"
    );
    frame[25] = 4;
    assert_eq!(rt; fault(&frame), Some((6, 22, 1)), "port 4 twice");
    frame[21] = 16;
    assert_eq!(rt; fault(&frame), Some((6, 18, 1)), "port 16");
}

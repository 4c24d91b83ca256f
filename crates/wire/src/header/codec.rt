// The header to and from its 18 octets.
//
// | 0 version, flag, type | 1 venture | 2–3 unit | 4 role | 5 signature length | 6–7 supplementary length |
// | 8–11 reference | 12 time code | 13–17 time tag |
ghost use Rattle.std.specs.Prelude.{◌≡◌, ◌-◌, ◌≤◌, true, [], length, IfOk, OnOk};
ghost use Rattle.wire.specs.Checks.{passing};
ghost use Rattle.wire.specs.Types.{length_right};
ghost use Rattle.wire.specs.Headers.{header_checks, header_octets, read_header};

use crate::fault::FrameFault;
use crate::header::Header;
use crate::layout::HEADER_LEN;
use crate::meta_type::MetaType;
use words::UNIT;

const NO_VERSION_NO_CHECKSUM: u8 = 32;

const VENTURE: u8 = 1;

const SIGNATURE_LEN: u8 = 0;

const TIME_CODE: u8 = 0x1D;

// The fixed fields and the supplementary length, in this order.
fn check_fields(octets: &[u8], kind: MetaType) -> Result<(), FrameFault>
    requires { 18 ≤ length octets.now }
    ensures checks { result ≡ passing (header_checks octets.now kind) }
    ensures sized { OnOk result (length_right kind (length octets.now - 18) ≡ true) }
{
    // By place, as the table above has them, and of the whole frame, as the definition is.
    if octets[1] != VENTURE {
        return Err(FrameFault::Venture);
    }
    if octets[2] != UNIT || octets[3] != UNIT {
        return Err(FrameFault::Unit);
    }
    if octets[5] != SIGNATURE_LEN {
        return Err(FrameFault::Signature);
    }
    if octets[12] != TIME_CODE {
        return Err(FrameFault::TimeCode);
    }
    let supplement = usize::from(u16::from_be_bytes([octets[6], octets[7]]));
    if !kind.allows(supplement) || octets.len() != HEADER_LEN + supplement {
        return Err(FrameFault::SupplementLength);
    }
    Ok(())
}

pub(crate) fn read_header(octets: &[u8]) -> Result<Header, FrameFault>
    ensures reads { result ≡ read_header octets.now }
    ensures sized { IfOk result (λ h. (length_right h.kind (length octets.now - 18) ≡ true) × (18 ≤ length octets.now)) }
{
    let Some(head) = octets.first_chunk::<HEADER_LEN>() else {
        return Err(FrameFault::Short);
    };
    let [first, _, _, _, role, ..] = *head;
    let [.., r0, r1, r2, r3, _, t0, t1, t2, t3, t4] = *head;
    if first >= NO_VERSION_NO_CHECKSUM {
        return Err(FrameFault::Version);
    }
    let kind = MetaType::try_from(first)?;
    check_fields(octets, kind)?;
    Ok(Header {
        kind,
        role,
        reference: u32::from_be_bytes([r0, r1, r2, r3]),
        time: u64::from_be_bytes([0, 0, 0, t0, t1, t2, t3, t4]),
    })
}

pub(crate) fn header_octets(h: Header, supplement: u16) -> [u8; HEADER_LEN]
    ensures { result ≡ header_octets h supplement [] }
{
    let [r0, r1, r2, r3] = h.reference.to_be_bytes();
    let [n0, n1] = supplement.to_be_bytes();
    let [_, _, _, t0, t1, t2, t3, t4] = h.time.to_be_bytes();
    let kind = h.kind.number();
    [
        kind,
        VENTURE,
        UNIT,
        UNIT,
        h.role,
        SIGNATURE_LEN,
        n0,
        n1,
        r0,
        r1,
        r2,
        r3,
        TIME_CODE,
        t0,
        t1,
        t2,
        t3,
        t4,
    ]
}

// The four fields of a word, and words among octets.
ghost use Rattle.std.specs.Prelude.{◌≡◌, ◌+◌, ◌*◌, ◌<◌, length, if◌then◌else◌, Some, None, nat_le};
ghost use Rattle.words.specs.Ranges.{applicant_valid};
ghost use Rattle.words.specs.Words.{word as word-by, kind_of, number_of, role_of, tail_of, word_at};

// How many octets a word has.
pub const WORD_LEN: usize = 4;

// What one more in a field adds to the word.
pub(crate) const KIND_STEP: u32 = 268_435_456;

const NUMBER_STEP: u32 = 1_048_576;

const ROLE_STEP: u32 = 4_096;

// The kind of the word of a member, and of a module that asks to be one.
pub(crate) const MEMBER_KIND: u8 = 1;

const LAST_PORT: u16 = 15;

pub(crate) const LAST_SUBJECT: u16 = 4_095;

pub(crate) fn word(kind: u8, number: u8, role: u8, tail: u16) -> u32
    requires { kind < 15 }
    ensures { result ≡ word-by kind number role tail }
{
    u32::from(kind) * KIND_STEP
        + u32::from(number) * NUMBER_STEP
        + u32::from(role) * ROLE_STEP
        + u32::from(tail)
}

pub(crate) fn kind_of(w: u32) -> u8
    ensures { result ≡ kind_of w }
{
    (w / KIND_STEP) as u8
}

pub(crate) fn number_of(w: u32) -> u8
    ensures { result ≡ number_of w }
{
    (w / NUMBER_STEP % 256) as u8
}

pub(crate) fn role_of(w: u32) -> u8
    ensures { result ≡ role_of w }
{
    (w / ROLE_STEP % 256) as u8
}

pub(crate) fn tail_of(w: u32) -> u16
    ensures { result ≡ tail_of w }
{
    (w % ROLE_STEP) as u16
}

// Whether a module of this role may be at this port.
pub(crate) fn may_sit(role: u8, port: u16) -> bool
    ensures { result ≡ applicant_valid role port }
{
    role >= 1 && (1..=LAST_PORT).contains(&port)
}

// The word whose first octet stands at `at`; none where fewer than four octets are left.
pub fn word_at(octets: &[u8], at: usize) -> Option<u32>
    ensures { result ≡ (if nat_le (at + 4) (length octets.now) then Some (word_at octets.now at) else None) }
{
    let word = octets.get(at..)?.first_chunk::<WORD_LEN>()?;
    Some(u32::from_be_bytes(*word))
}

// Octets as hexadecimal text.
ghost use Rattle.std.specs.Prelude.{◌≡◌, ◌*◌, ◌<◌, ◌≤◌, [], length, take, IfSome, IfOk, if◌then◌else◌, Some, None, vec_items, string_bytes};
ghost use Rattle.std.specs.Option.{option_map};
ghost use Rattle.explain.specs.Hex.{Scan, broken, digit, finish, hexed, scanned, step, unhex};

use std::alloc::{AllocError, Global};
use std::fmt;
use std::marker::Model;

// Octets, printed as two upper-case digits each.
#[derive(Clone, Copy)]
pub(crate) struct InHex<'a>(pub(crate) &'a [u8]);

impl fmt::Display for InHex<'_> {
    ghost output = { λ p. Some (hexed p.0.now) };

    // Piece by piece: each writing of a text has its cost, however short the text.
    fn fmt<W: fmt::Write>(&self, f: &mut fmt::Formatter<W>) -> fmt::Result {
        for piece in self.0.chunks(PIECE) {
            let mut digits = [0u8; 2 * PIECE];
            let count = put_digits(&mut digits, piece);
            f.write_str(str::from_utf8(&digits[..count]).map_err(|_| fmt::Error)?)?;
        }
        Ok(())
    }
}

// How many octets are written at once.
const PIECE: usize = 32;

// A digit in upper case.
fn digit(d: u8) -> u8
    requires { d < 16 }
    ensures { result ≡ digit d }
{
    if d < 10 { b'0' + d } else { b'A' - 10 + d }
}

// Puts the digits of the octets to the start of the buffer; the answer is how many they are.
fn put_digits(buffer: &mut [u8], octets: &[u8]) -> usize
    requires { 2 * length octets.now ≤ length buffer.old }
    ensures count { result ≤ length buffer.new }
    ensures digits { take result buffer.new ≡ hexed octets.now }
{
    for (k, octet) in octets.iter().enumerate() {
        buffer[2 * k] = digit(*octet / 16);
        buffer[2 * k + 1] = digit(*octet % 16);
    }
    2 * octets.len()
}

// Two upper-case digits for each octet.
pub fn to_hex(heap: Global, octets: &[u8]) -> Result<String, AllocError>
    ensures text { IfOk result (λ s. string_bytes s ≡ hexed octets.now) }
    ensures back { IfOk result (λ s. unhex (string_bytes s) ≡ Some octets.now) }
{
    format!(in heap; "{}", InHex(octets))
}

// The octets so far, and the first digit of one that is begun.
#[derive(Drop)]
struct Scanner {
    octets: Vec<u8>,
    high: Option<u32>,
}

impl Model for Scanner {
    ghost Value = { Scan };

    ghost view = { λ s. scanned s.octets.items s.high };

    ghost invariant = { λ s. IfSome s.high (λ h. h < 16) };
}

impl Scanner {
    fn new(heap: Global) -> Scanner
        ensures { result ≡ scanned [] None }
    {
        Scanner {
            octets: Vec::new(heap),
            high: None,
        }
    }

    // One character more; false where the line is no hex. An error enum for this and for no memory would be taken apart
    // again by its one caller.
    fn take(&mut self, c: u8) -> Result<bool, AllocError>
        ensures { IfOk result (λ b. (if b then self.new else broken) ≡ step self.old c) }
    {
        let Some(digit) = char::from(c).to_digit(16) else {
            return Ok(self.high.is_none() && matches!(c, b' ' | b'\t' | b'\r'));
        };
        match self.high.take() {
            None => self.high = Some(digit),
            Some(high) => self.octets.push((high * 16 + digit) as u8)?,
        }
        Ok(true)
    }

    // The octets; none within an octet.
    fn finish(self) -> Option<Vec<u8>>
        ensures { option_map vec_items result ≡ finish self }
    {
        match self.high {
            Some(_) => None,
            None => Some(self.octets),
        }
    }
}

// The octets that the line spells, two digits for each, with blanks between them; none if it is no hex.
pub fn from_hex(heap: Global, line: &[u8]) -> Result<Option<Vec<u8>>, AllocError>
    ensures { IfOk result (λ o. option_map vec_items o ≡ unhex line.now) }
{
    let mut scanner = Scanner::new(heap);
    for c in line {
        if !scanner.take(*c)? {
            return Ok(None);
        }
    }
    Ok(scanner.finish())
}

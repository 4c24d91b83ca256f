// A line of a dump.
ghost use Rattle.std.specs.Prelude.{◌≡◌, ℕ, ◌<◌, ◌≤◌, length, IfOk, string_bytes, ◌≢◌, slice_index};
ghost use Rattle.std.specs.Option.{option_map};
ghost use Rattle.explain.specs.Hex.{unhex};
ghost use Rattle.explain.specs.Texts.{answer, passed_over, spelled};

use crate::hex::from_hex;
use crate::text::explain;
use std::alloc::{AllocError, Global};

// Where the first line ends: at the first line feed, or with the dump.
pub fn line_end(dump: &[u8]) -> usize
    ensures within { result ≤ length dump.now }
    ensures before { (k : ℕ) → k < result → slice_index dump.now k ≢ 10 }
    ensures ends { result < length dump.now → slice_index dump.now result ≡ 10 }
{
    dump.iter().position(|c| *c == b'\n').unwrap_or(dump.len())
}

fn passed_over(line: &[u8]) -> bool
    ensures { result ≡ passed_over line.now }
{
    matches!(line, [] | [b'#', ..] | [b'\r'])
}

fn spell(heap: Global, line: &[u8]) -> Result<String, AllocError>
    ensures { IfOk result (λ s. string_bytes s ≡ spelled (unhex line.now)) }
{
    match from_hex(heap, line)? {
        Some(octets) => explain(heap, octets.as_slice()),
        None => String::from_str(heap, "not hex"),
    }
}

// What is printed for a line of a dump: nothing where it is empty or a comment, else what its octets are, or `not hex`.
pub fn answer_line(heap: Global, line: &[u8]) -> Result<Option<String>, AllocError>
    ensures { IfOk result (λ o. option_map string_bytes o ≡ answer line.now) }
{
    if passed_over(line) {
        return Ok(None);
    }
    Ok(Some(spell(heap, line)?))
}

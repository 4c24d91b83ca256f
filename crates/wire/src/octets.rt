// Octets and words put to the start of a buffer.
ghost use Rattle.std.specs.Prelude.{◌≡◌, ◌+◌, ◌*◌, ◌≤◌, ◌++◌, length, drop};
ghost use Rattle.words.specs.Words.{words_octets};

// Copies octets to the buffer's start; the answer is how many.
pub(crate) fn put(buffer: &mut [u8], octets: &[u8]) -> usize
    requires { length octets.now ≤ length buffer.old }
    ensures octets { buffer.new ≡ octets.now ++ drop result buffer.old }
    ensures count { result ≡ length octets.now }
{
    buffer[..octets.len()].copy_from_slice(octets);
    octets.len()
}

// Puts words to the buffer's start, one after the other, and octets after them; the answer is how many octets in all. One
// for this and for books would be public in words, and have to answer for a buffer that is too short.
pub(crate) fn put_worded(buffer: &mut [u8], words: &[u32], octets: &[u8]) -> usize
    requires { 4 * length words.now + length octets.now ≤ length buffer.old }
    ensures octets { buffer.new ≡ (words_octets words.now ++ octets.now) ++ drop result buffer.old }
    ensures count { result ≡ 4 * length words.now + length octets.now }
{
    let mut end = 0;
    for word in words {
        end += put(&mut buffer[end..], &word.to_be_bytes());
    }
    end + put(&mut buffer[end..], octets)
}

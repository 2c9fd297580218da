// Numbers in the bytes of a record, unsigned, high byte first: read and put.
#![tactic(auto)]

ghost use Rattle.std.specs.Prelude.{◌≡◌, ◌+◌, ◌^◌, ◌≤◌, ◌<◌, length};
ghost use Rattle.numbers.specs.RecordNumber.{has, bytes_of, number_at, written};

// Whether a record of n bytes has `width` bytes from byte `at` on.
#[tactic(auto, unfolding(crate::specs::RecordNumber::has))]
pub fn reaches(n: usize, at: usize, width: usize) -> bool
    ensures { result ≡ has n at width }
{
    at <= n && width <= n - at
}

// The number in WIDTH bytes that are there, read with no further test.
fn number_in<const WIDTH: usize>(s: &[u8], at: usize) -> u32
    requires { (WIDTH ≤ 4) × (at + WIDTH ≤ length s.now) }
    ensures { (result ≡ number_at s.now at WIDTH) × (result < 256 ^ WIDTH) }
{
    let mut bytes = [0; 4];
    bytes[4 - WIDTH..].copy_from_slice(&s[at..at + WIDTH]);
    u32::from_be_bytes(bytes)
}

// The number in WIDTH bytes; 0 where the record does not have them all.
#[tactic(auto, using(crate::proofs::Numbers::bytes_pos), unfolding(crate::specs::RecordNumber::has, crate::specs::RecordNumber::number_at))]
fn number_at<const WIDTH: usize>(s: &[u8], at: usize) -> u32
    requires { WIDTH ≤ 4 }
    ensures { (result ≡ number_at s.now at WIDTH) × (result < 256 ^ WIDTH) }
{
    if reaches(s.len(), at, WIDTH) {
        number_in::<WIDTH>(s, at)
    } else {
        0
    }
}

// The number in one byte; 0 where the record has no such byte.
pub fn byte_at(s: &[u8], at: usize) -> u32
    ensures { (result ≡ number_at s.now at 1) × (result < 2 ^ 8) }
{
    number_at::<1>(s, at)
}

// The number in two bytes; 0 where the record does not have them both.
pub fn pair_at(s: &[u8], at: usize) -> u32
    ensures { (result ≡ number_at s.now at 2) × (result < 2 ^ 16) }
{
    number_at::<2>(s, at)
}

// The number in four bytes that are there, read with no further test.
pub fn word_in(s: &[u8], at: usize) -> u32
    requires { at + 4 ≤ length s.now }
    ensures { (result ≡ number_at s.now at 4) × (result < 2 ^ 32) }
{
    number_in::<4>(s, at)
}

// The number in four bytes; 0 where the record does not have them all.
pub fn word_at(s: &[u8], at: usize) -> u32
    ensures { (result ≡ number_at s.now at 4) × (result < 2 ^ 32) }
{
    number_at::<4>(s, at)
}

// Writes the lowest WIDTH bytes of a number; nothing where the buffer does not have them all.
#[tactic(auto, unfolding(crate::specs::RecordNumber::has))]
fn put<const WIDTH: usize>(out: &mut [u8], at: usize, value: u32)
    requires { WIDTH ≤ 4 }
    ensures { out.new ≡ written out.old at (bytes_of WIDTH value) }
{
    if reaches(out.len(), at, WIDTH) {
        out[at..at + WIDTH].copy_from_slice(&value.to_be_bytes()[4 - WIDTH..]);
    }
}

// Writes the lowest byte of a number; nothing where the buffer has no such byte.
pub fn put_byte(out: &mut [u8], at: usize, value: u32)
    ensures { out.new ≡ written out.old at (bytes_of 1 value) }
{
    put::<1>(out, at, value);
}

// Writes the lowest two bytes of a number; nothing where the buffer does not have them both.
pub fn put_pair(out: &mut [u8], at: usize, value: u32)
    ensures { out.new ≡ written out.old at (bytes_of 2 value) }
{
    put::<2>(out, at, value);
}

// Writes the four bytes of a number; nothing where the buffer does not have them all.
pub fn put_word(out: &mut [u8], at: usize, value: u32)
    ensures { out.new ≡ written out.old at (bytes_of 4 value) }
{
    put::<4>(out, at, value);
}

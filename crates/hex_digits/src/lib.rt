// Bytes that are spelled by hexadecimal digits, for the programs that read their cases.
#![tactic(auto)]

ghost use Rattle.std.specs.Prelude.{◌≡◌, ◌<◌, ◌≤◌, length, take, IfSome};

// The value of a hexadecimal digit; none for any other byte.
fn digit(b: u8) -> Option<u8>
    ensures { IfSome result (λ d. d < 16) }
{
    match b {
        b'0'..=b'9' => Some(b - b'0'),
        b'a'..=b'f' => Some(b - b'a' + 10),
        _ => None,
    }
}

// The bytes that the digits from `from` on spell; answers how many there are.
pub fn decode(text: &[u8], from: usize, bytes: &mut [u8]) -> usize
    ensures in_bounds { result ≤ length bytes.new }
    ensures prefix { result ≡ length (take result bytes.new) }
{
    let mut n = 0;
    for b in text.iter().skip(from) {
        let Some(d) = digit(*b) else { return n / 2 };
        let Some(byte) = bytes.get_mut(n / 2) else {
            return n / 2;
        };
        *byte = *byte % 16 * 16 + d;
        n += 1;
    }
    n / 2
}

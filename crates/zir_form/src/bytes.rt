// Bytes of a text, and hexadecimal digits.
ghost use Rattle.std.specs.Prelude.{◌≡◌, ◌<◌, ◌≤◌, ◌+◌, drop, min, length, slice_index, IfSome};
ghost use Rattle.zig_tree.specs.TokenBytes.{is_within};
ghost use Rattle.zir_form.specs.Escapes.{hex_value, number_at_front, digit_count};

/// The byte at a place, and 0 past the end.
pub fn byte_at(bytes: &[u8], at: usize) -> u8
    ensures { result ≡ slice_index bytes.now at }
{
    if at < bytes.len() { bytes[at] } else { 0 }
}

/// What is left from a place on.
#[tactic(auto, using(std::proofs::lemmas::List::drop_all))]
pub fn behind(bytes: &[u8], at: usize) -> &[u8]
    ensures { result.now ≡ drop at bytes.now }
{
    if at <= bytes.len() {
        &bytes[at..]
    } else {
        &bytes[bytes.len()..]
    }
}

pub fn is_within(low: u8, high: u8, byte: u8) -> bool
    ensures { result ≡ is_within low high byte }
{
    low <= byte && byte <= high
}

/// The value of a hexadecimal digit.
#[tactic(auto, unfolding(crate::specs::Escapes::hex_value, zig_tree::specs::TokenBytes::is_hex_digit, zig_tree::specs::TokenBytes::is_digit, zig_tree::specs::TokenBytes::digit_value))]
pub fn hex_value(byte: u8) -> Option<u8>
    ensures exact { result ≡ hex_value byte }
    ensures small { IfSome result (λ d. d < 16) }
{
    if is_within(b'0', b'9', byte) {
        Some(byte - b'0')
    } else if is_within(b'A', b'F', byte) {
        Some(byte - 55)
    } else if is_within(b'a', b'f', byte) {
        Some(byte - 87)
    } else {
        None
    }
}

/// The hexadecimal digits at the front.
#[derive(Clone, Copy, Debug)]
pub struct DigitRun {
    /// The number that they make, or 0x110000 where it is larger.
    pub number: u32,
    /// How many they are.
    pub count: usize,
}

/// The hexadecimal digits at the front.
pub fn digits_at_front(bytes: &[u8]) -> DigitRun
    ensures number { result.number ≡ min (number_at_front 0 bytes.now) 0x110000 }
    ensures count { result.count ≡ digit_count bytes.now }
    ensures within { result.count ≤ length bytes.now }
{
    let mut number: u32 = 0;
    for (i, byte) in bytes.iter().enumerate() {
        match hex_value(*byte) {
            Some(digit) => number = (16 * number + digit as u32).min(0x110000),
            None => return DigitRun { number, count: i },
        }
    }
    DigitRun {
        number,
        count: bytes.len(),
    }
}

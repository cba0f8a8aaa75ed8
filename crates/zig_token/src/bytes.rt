// Bytes of a text, and the characters that may stand in comments and strings.
ghost use Rattle.std.specs.Prelude.{◌≡◌, ◌≤◌, ◌<◌, ◌+◌, ◌^◌, length, slice_index, true};
ghost use Rattle.zig_tree.specs.TokenBytes.{is_within, is_digit, is_name_start, is_name_byte, is_hex_digit, digit_value, is_plain, is_blank, ends_line, is_tail, is_two_bytes, is_three_bytes, is_four_bytes, char_len};

/// The byte at a place, and 0 past the end: 0 stands nowhere in a text that has tokens.
pub fn byte_at(text: &[u8], at: usize) -> u8
    ensures { result ≡ slice_index text.now at }
{
    if at < text.len() { text[at] } else { 0 }
}

pub fn is_within(low: u8, high: u8, byte: u8) -> bool
    ensures { result ≡ is_within low high byte }
{
    low <= byte && byte <= high
}

#[tactic(auto, unfolding(zig_tree::specs::TokenBytes::is_digit))]
pub fn is_digit(byte: u8) -> bool
    ensures { result ≡ is_digit byte }
{
    is_within(b'0', b'9', byte)
}

#[tactic(auto, unfolding(zig_tree::specs::TokenBytes::is_name_start))]
pub fn is_name_start(byte: u8) -> bool
    ensures { result ≡ is_name_start byte }
{
    is_within(b'A', b'Z', byte) || is_within(b'a', b'z', byte) || byte == b'_'
}

#[tactic(auto, unfolding(zig_tree::specs::TokenBytes::is_name_byte))]
pub fn is_name_byte(byte: u8) -> bool
    ensures { result ≡ is_name_byte byte }
{
    is_name_start(byte) || is_digit(byte)
}

#[tactic(auto, unfolding(zig_tree::specs::TokenBytes::is_hex_digit))]
pub fn is_hex_digit(byte: u8) -> bool
    ensures { result ≡ is_hex_digit byte }
{
    is_digit(byte) || is_within(b'A', b'F', byte) || is_within(b'a', b'f', byte)
}

#[tactic(auto, unfolding(zig_tree::specs::TokenBytes::is_plain))]
pub fn is_plain(byte: u8) -> bool
    ensures { result ≡ is_plain byte }
{
    byte == b'\t' || is_within(b' ', b'~', byte)
}

#[tactic(auto, unfolding(zig_tree::specs::TokenBytes::is_blank))]
pub fn is_blank(byte: u8) -> bool
    ensures { result ≡ is_blank byte }
{
    byte == b' ' || byte == b'\t' || byte == b'\n'
}

/// Whether the text ends at the place, or its line does.
#[tactic(auto, unfolding(zig_tree::specs::TokenBytes::ends_line))]
pub fn ends_line(text: &[u8], at: usize) -> bool
    requires { at < 2 ^ 32 }
    ensures { result ≡ ends_line text.now at }
{
    text.len() <= at
        || byte_at(text, at) == b'\n'
        || (byte_at(text, at) == b'\r' && byte_at(text, at + 1) == b'\n')
}

/// The value of a digit, also of a hexadecimal one.
#[tactic(auto, unfolding(zig_tree::specs::TokenBytes::is_hex_digit, zig_tree::specs::TokenBytes::digit_value, zig_tree::specs::TokenBytes::is_digit))]
pub fn digit_value(byte: u8) -> u8
    requires { is_hex_digit byte ≡ true }
    ensures exact { result ≡ digit_value byte }
    ensures small { result < 16 }
{
    if is_digit(byte) {
        byte - b'0'
    } else if is_within(b'A', b'F', byte) {
        byte - 55
    } else {
        byte - 87
    }
}

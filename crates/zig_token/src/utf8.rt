// Characters above 0x7F (The Unicode Standard, "Well-Formed UTF-8 Byte Sequences").
ghost use Rattle.std.specs.Prelude.{◌≡◌, ◌≤◌, ◌<◌, ◌+◌, ◌^◌, length};
ghost use Rattle.zig_tree.specs.TokenBytes.{is_two_bytes, is_three_bytes, is_four_bytes, char_len, is_within};

use crate::bytes::{byte_at, is_plain, is_within};

fn is_tail(byte: u8) -> bool
    ensures { result ≡ is_within 0x80 0xBF byte }
{
    is_within(0x80, 0xBF, byte)
}

#[tactic(auto, unfolding(zig_tree::specs::TokenBytes::is_two_bytes))]
fn is_two_bytes(a: u8, b: u8) -> bool
    ensures { result ≡ is_two_bytes a b }
{
    is_within(0xC2, 0xDF, a) && is_tail(b)
}

#[tactic(auto, unfolding(zig_tree::specs::TokenBytes::is_three_bytes))]
fn is_three_bytes(a: u8, b: u8, c: u8) -> bool
    ensures { result ≡ is_three_bytes a b c }
{
    let second = a == 0xE0 && is_within(0xA0, 0xBF, b)
        || is_within(0xE1, 0xEC, a) && is_tail(b)
        || a == 0xED && is_within(0x80, 0x9F, b)
        || is_within(0xEE, 0xEF, a) && is_tail(b);
    second && is_tail(c)
}

#[tactic(auto, unfolding(zig_tree::specs::TokenBytes::is_four_bytes))]
fn is_four_bytes(a: u8, b: u8, c: u8, d: u8) -> bool
    ensures { result ≡ is_four_bytes a b c d }
{
    let second = a == 0xF0 && is_within(0x90, 0xBF, b)
        || is_within(0xF1, 0xF3, a) && is_tail(b)
        || a == 0xF4 && is_within(0x80, 0x8F, b);
    second && is_tail(c) && is_tail(d)
}

/// How many bytes the character at a place has that may stand in a comment or a string; 0 where
/// none may.
#[tactic(auto, unfolding(zig_tree::specs::TokenBytes::char_len))]
pub fn char_len(text: &[u8], at: usize) -> usize
    requires { at < 2 ^ 32 }
    ensures { result ≡ char_len text.now at }
{
    let a = byte_at(text, at);
    if is_plain(a) {
        return 1;
    }
    if is_two_bytes(a, byte_at(text, at + 1)) {
        return 2;
    }
    if is_three_bytes(a, byte_at(text, at + 1), byte_at(text, at + 2)) {
        return 3;
    }
    let b = byte_at(text, at + 1);
    if is_four_bytes(a, b, byte_at(text, at + 2), byte_at(text, at + 3)) {
        return 4;
    }
    0
}

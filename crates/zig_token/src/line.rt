// Lines of text: comments, and strings of several lines.
ghost use Rattle.std.specs.Prelude.{◌≡◌, ◌≤◌, ◌<◌, ◌+◌, ◌^◌, length, drop, IfOk, IfSome};
ghost use Rattle.zig_token.specs.Scan.{line_end, blanks_from, next_line, lines_end};
ghost use Rattle.zig_tree.specs.TokenBytes.{begins};

use crate::bytes::{byte_at, ends_line};
use crate::fault::LexFault;
use crate::utf8::char_len;

/// Whether two bytes stand at a place.
#[tactic(auto, unfolding(zig_tree::specs::TokenBytes::begins))]
pub fn begins(text: &[u8], at: usize, first: u8, second: u8) -> bool
    requires { at < 2 ^ 63 }
    ensures { result ≡ begins text.now at first second }
{
    byte_at(text, at) == first && byte_at(text, at + 1) == second
}

/// The end of the line that goes on at a place, before its line end.
#[tactic(auto, using(crate::proofs::Lines::line_ends, crate::proofs::Lines::line_wrong, crate::proofs::Lines::line_further, crate::proofs::Lines::line_done, crate::proofs::Lines::char_fits), unfolding(crate::specs::Scan::line_end))]
pub fn line_end(text: &[u8], from: usize) -> Result<usize, LexFault>
    requires short { length text.now < 2 ^ 32 }
    requires place { from ≤ length text.now }
    ensures exact { result ≡ line_end text.now from }
    ensures within { IfOk result (λ end. (from ≤ end) × (end ≤ length text.now)) }
{
    let mut at = from;
    while at < text.len() {
        if ends_line(text, at) {
            return Ok(at);
        }
        let len = char_len(text, at);
        if len == 0 {
            return Err(LexFault::BadByte { at: at as u32 });
        }
        at += len;
    }
    Ok(at)
}

#[tactic(auto, using(crate::proofs::Lines::blanks_further, crate::proofs::Lines::blanks_end, crate::proofs::Lines::blanks_done))]
fn blanks_end(text: &[u8], from: usize) -> usize
    requires { from < 2 ^ 33 }
    ensures exact { result ≡ blanks_from from (drop from text.now) }
    ensures after { from ≤ result }
    ensures bounded { result ≤ from + length text.now }
{
    let mut at = from;
    while at < text.len() && (text[at] == b' ' || text[at] == b'\t') {
        at += 1;
    }
    at
}

/// The `\\` with which the line after a line's end begins, after spaces and TABs: the place
/// behind it.
#[tactic(auto, using(crate::proofs::Lines::begins_fits), unfolding(crate::specs::Scan::next_line))]
fn next_line(text: &[u8], at: usize) -> Option<usize>
    requires { (at < 2 ^ 32) × (length text.now < 2 ^ 32) }
    ensures exact { result ≡ next_line text.now at }
    ensures further { IfSome result (λ on. at < on) }
    ensures within { IfSome result (λ on. on ≤ length text.now) }
{
    let start = if byte_at(text, at) == b'\r' {
        at + 2
    } else {
        at + 1
    };
    let mark = blanks_end(text, start);
    if begins(text, mark, b'\\', b'\\') {
        Some(mark + 2)
    } else {
        None
    }
}

/// The end of neighbouring lines that each begin with `\\`, from behind the first.
#[tactic(auto, using(crate::proofs::Lines::lines_end, crate::proofs::Lines::lines_on, crate::proofs::Lines::lines_wrong, crate::proofs::Lines::lines_further, crate::proofs::Lines::lines_done, crate::proofs::Lines::char_fits), unfolding(crate::specs::Scan::lines_end))]
pub fn lines_end(text: &[u8], from: usize) -> Result<usize, LexFault>
    requires short { length text.now < 2 ^ 32 }
    requires place { from ≤ length text.now }
    ensures exact { result ≡ lines_end text.now from }
    ensures within { IfOk result (λ end. (from ≤ end) × (end ≤ length text.now)) }
{
    let mut at = from;
    while at < text.len() {
        if ends_line(text, at) {
            match next_line(text, at) {
                None => return Ok(at),
                Some(on) => at = on,
            }
        } else {
            let len = char_len(text, at);
            if len == 0 {
                return Err(LexFault::BadByte { at: at as u32 });
            }
            at += len;
        }
    }
    Ok(at)
}

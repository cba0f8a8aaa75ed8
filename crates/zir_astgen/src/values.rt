// The values of literals, from the bytes of their tokens.
mod laws;
mod number;
#[cfg(test)]
mod tests;
mod text;

pub use laws::{characters_are_read, integers_are_whole, lines_are_joined, strings_are_read};
pub use number::{char_value, int_value};
pub use text::{multiline_value, string_value};

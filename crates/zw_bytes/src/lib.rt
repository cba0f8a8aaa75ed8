//! A buffer of bytes with room that was taken beforehand, and the variable-length numbers of
//! WebAssembly (LEB128; WebAssembly Core 1.0, section 5.2.2) that are put into it.
//!
//! The model: a `ByteBuf` is its bytes and `spare`, the number of bytes that it still takes without
//! asking for memory. Only `with_room`, `reserve` and `put_slice` take memory; each other `put` needs
//! spare room, and so can't fail.
//! Public calls: `ByteBuf::with_room`, `reserve`, `put`, `put_slice`, the shortest forms `put_u32`,
//! `put_len`, `put_s32` and `put_s64`, the forms of five bytes `put_u32_padded` and `put_s32_padded`,
//! and the laws `one_form` and `all_forms`. The crate stands on `std` alone.
#![tactic(auto)]

mod buffer;
mod leb;
#[cfg(test)]
mod tests;

pub use buffer::ByteBuf;
pub use leb::{all_forms, one_form};

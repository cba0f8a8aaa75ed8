// Code and data before they are linked: their operands name what they stand for.
use crate::instr::Instr;
use crate::module::{FnType, ValType};
use zw_base::{Bytes, Seq};

/// A function of the module's host, as its declaration names it. One declaration has one spelling.
#[derive(Debug, Drop)]
pub struct ExternFunction {
    pub spelling: Bytes,
    pub module_name: Bytes,
    pub name: Bytes,
    pub kind: FnType,
}

/// What an operand stands for.
#[derive(Debug, Drop)]
pub enum Symbol {
    /// A function with a body, by the spelling of its instance.
    Function(Bytes),
    /// A function of the host's.
    Extern(ExternFunction),
    /// The address of a data item, by its spelling, and so many bytes beyond it.
    Data { spelling: Bytes, beyond: u32 },
    /// The number of an error name.
    Error(Bytes),
}

/// An operand that linking fills in. In code `place` counts instructions: a `Call` is given a
/// function, a `LinkedConst` an address or an error's number. In data it counts bytes: an address
/// takes four, an error's number two, the lowest byte first.
#[derive(Debug, Drop)]
pub struct Reloc {
    pub place: usize,
    pub symbol: Symbol,
}

/// The code of a function, without the `end` that closes it.
#[derive(Debug, Drop)]
pub struct FnCode {
    pub kind: FnType,
    /// The locals behind the parameters, in order.
    pub locals: Seq<ValType>,
    pub body: Seq<Instr>,
    pub relocs: Seq<Reloc>,
}

/// What the address of a data item is a multiple of, in bytes.
#[derive(Clone, Copy, Debug, PartialEq, Eq)]
pub enum Alignment {
    One,
    Two,
    Four,
    Eight,
}

/// Bytes that stand in memory from the start.
#[derive(Debug, Drop)]
pub enum DataItem {
    Bytes {
        bytes: Bytes,
        align: Alignment,
        relocs: Seq<Reloc>,
    },
    /// A value of more than 67,108,864 bytes, which no module can hold.
    TooLarge,
}

// Instructions (WebAssembly Core 1.0, section 5.4), as far as the code templates use them.
ghost use Rattle.std.specs.Prelude.{◌≡◌};
ghost use Rattle.wasm_form.specs.Opcodes.{comparison_opcode, unary_opcode, binary_opcode, load_opcode, store_opcode, eqz_opcode};

use crate::module::ValType;

/// What a block leaves on the stack (section 5.4.1).
#[derive(Clone, Copy, Debug, PartialEq, Eq)]
pub enum BlockType {
    Empty,
    I32,
}

/// A comparison of two numbers of one type, which gives an `i32` that is 1 where it holds and else 0.
#[derive(Clone, Copy, Debug, PartialEq, Eq)]
pub enum Comparison {
    Equal,
    NotEqual,
    LessSigned,
    LessUnsigned,
    GreaterSigned,
    GreaterUnsigned,
    AtMostSigned,
    AtMostUnsigned,
    AtLeastSigned,
    AtLeastUnsigned,
}

/// An operation on one number that gives a number of its type.
#[derive(Clone, Copy, Debug, PartialEq, Eq)]
pub enum UnaryOp {
    CountLeadingZeros,
    CountTrailingZeros,
    CountOnes,
}

/// An operation on two numbers of one type that gives a number of that type.
#[derive(Clone, Copy, Debug, PartialEq, Eq)]
pub enum BinaryOp {
    Add,
    Subtract,
    Multiply,
    DivideSigned,
    DivideUnsigned,
    RemainderSigned,
    RemainderUnsigned,
    And,
    Or,
    Xor,
    ShiftLeft,
    ShiftRightSigned,
    ShiftRightUnsigned,
    RotateLeft,
    RotateRight,
}

/// What is read from memory, and how it is widened (section 5.4.4).
#[derive(Clone, Copy, Debug, PartialEq, Eq)]
pub enum LoadKind {
    I32,
    I64,
    /// A byte, widened to an `i32` by its sign.
    I32Signed8,
    I32Unsigned8,
    /// Two bytes, widened to an `i32` by their sign.
    I32Signed16,
    I32Unsigned16,
}

/// What is written to memory (section 5.4.4).
#[derive(Clone, Copy, Debug, PartialEq, Eq)]
pub enum StoreKind {
    I32,
    I64,
    /// The low byte of an `i32`.
    I32Low8,
    /// The two low bytes of an `i32`.
    I32Low16,
}

/// An instruction. Blocks stand as in the binary format: `Block`, `Loop` and `If` are closed by an
/// `End`, and a label is the number of blocks between the branch and the one that it names.
#[derive(Clone, Copy, Debug, PartialEq, Eq)]
pub enum Instr {
    Unreachable,
    Block(BlockType),
    Loop(BlockType),
    If(BlockType),
    Else,
    /// `end` of a block.
    End,
    Br(u32),
    Return,
    Drop,
    Select,
    LocalGet(u32),
    LocalSet(u32),
    LocalTee(u32),
    GlobalGet(u32),
    GlobalSet(u32),
    /// A load at the address on the stack plus an offset in bytes; it claims no alignment.
    Load(LoadKind, u32),
    /// A store at the address on the stack plus an offset in bytes; it claims no alignment.
    Store(StoreKind, u32),
    /// `i32.const`, of the number with these 32 bits.
    I32Const(i32),
    /// `i64.const`, of the number with these 64 bits.
    I64Const(i64),
    /// `call` of the function with this index, which is written in five bytes: linking fills it in.
    Call(u32),
    /// `i32.const` of an address or of an error's number, in five bytes: linking fills it in.
    LinkedConst(i32),
    /// `eqz`: 1 where a number of this type is zero, else 0.
    IsZero(ValType),
    Compare(ValType, Comparison),
    Unary(ValType, UnaryOp),
    Binary(ValType, BinaryOp),
    /// `i32.wrap_i64`: the low 32 bits.
    Wrap,
    /// `i64.extend_i32_s`.
    ExtendSigned,
    /// `i64.extend_i32_u`.
    ExtendUnsigned,
}

impl Comparison {
    /// Its opcode at a type of numbers (section 5.4.6).
    pub fn opcode(self, class: ValType) -> u8
        ensures { result ≡ comparison_opcode class self }
    {
        let after_equal = match self {
            Comparison::Equal => 0,
            Comparison::NotEqual => 1,
            Comparison::LessSigned => 2,
            Comparison::LessUnsigned => 3,
            Comparison::GreaterSigned => 4,
            Comparison::GreaterUnsigned => 5,
            Comparison::AtMostSigned => 6,
            Comparison::AtMostUnsigned => 7,
            Comparison::AtLeastSigned => 8,
            Comparison::AtLeastUnsigned => 9,
        };
        match class {
            ValType::I32 => 0x46 + after_equal,
            ValType::I64 => 0x51 + after_equal,
        }
    }
}

impl UnaryOp {
    /// Its opcode at a type of numbers (section 5.4.6).
    pub fn opcode(self, class: ValType) -> u8
        ensures { result ≡ unary_opcode class self }
    {
        let after_first = match self {
            UnaryOp::CountLeadingZeros => 0,
            UnaryOp::CountTrailingZeros => 1,
            UnaryOp::CountOnes => 2,
        };
        match class {
            ValType::I32 => 0x67 + after_first,
            ValType::I64 => 0x79 + after_first,
        }
    }
}

impl BinaryOp {
    /// Its opcode at a type of numbers (section 5.4.6).
    pub fn opcode(self, class: ValType) -> u8
        ensures { result ≡ binary_opcode class self }
    {
        let after_add = match self {
            BinaryOp::Add => 0,
            BinaryOp::Subtract => 1,
            BinaryOp::Multiply => 2,
            BinaryOp::DivideSigned => 3,
            BinaryOp::DivideUnsigned => 4,
            BinaryOp::RemainderSigned => 5,
            BinaryOp::RemainderUnsigned => 6,
            BinaryOp::And => 7,
            BinaryOp::Or => 8,
            BinaryOp::Xor => 9,
            BinaryOp::ShiftLeft => 10,
            BinaryOp::ShiftRightSigned => 11,
            BinaryOp::ShiftRightUnsigned => 12,
            BinaryOp::RotateLeft => 13,
            BinaryOp::RotateRight => 14,
        };
        match class {
            ValType::I32 => 0x6a + after_add,
            ValType::I64 => 0x7c + after_add,
        }
    }
}

impl LoadKind {
    /// Its opcode (section 5.4.4).
    pub fn opcode(self) -> u8
        ensures { result ≡ load_opcode self }
    {
        match self {
            LoadKind::I32 => 0x28,
            LoadKind::I64 => 0x29,
            LoadKind::I32Signed8 => 0x2c,
            LoadKind::I32Unsigned8 => 0x2d,
            LoadKind::I32Signed16 => 0x2e,
            LoadKind::I32Unsigned16 => 0x2f,
        }
    }
}

impl StoreKind {
    /// Its opcode (section 5.4.4).
    pub fn opcode(self) -> u8
        ensures { result ≡ store_opcode self }
    {
        match self {
            StoreKind::I32 => 0x36,
            StoreKind::I64 => 0x37,
            StoreKind::I32Low8 => 0x3a,
            StoreKind::I32Low16 => 0x3b,
        }
    }
}

/// The opcode of `eqz` at a type of numbers (section 5.4.6).
pub fn eqz_opcode_of(class: ValType) -> u8
    ensures { result ≡ eqz_opcode class }
{
    match class {
        ValType::I32 => 0x45,
        ValType::I64 => 0x50,
    }
}

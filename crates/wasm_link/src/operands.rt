// What operands stand for.
ghost use Rattle.std.specs.Prelude.{◌≡◌, ◌+◌, ◌%◌, ◌^◌, slice_index};
ghost use Rattle.wasm_link.specs.Operands.{operand, with_operand};

use crate::names::Names;
use wasm_form::{Instr, Symbol};
use zw_base::Seq;

/// What operands name: the spellings of imports, functions and items in the module's order, the
/// addresses of the items, and the error names.
#[derive(Drop)]
pub struct Targets {
    pub imports: Names,
    pub functions: Names,
    pub items: Names,
    pub addresses: Seq<u32>,
    pub errors: Names,
}

impl Targets {
    /// What a symbol stands for, as a number of 32 bits.
    pub fn operand(&self, symbol: &Symbol) -> u32
        ensures { result ≡ operand self.now symbol.now }
    {
        match symbol {
            Symbol::Function(spelling) => {
                low_sum(self.imports.len(), self.functions.find(spelling.as_slice()))
            }
            Symbol::Extern(host) => low_sum(self.imports.find(host.spelling.as_slice()), 0),
            Symbol::Data { spelling, beyond } => {
                let number = self.items.find(spelling.as_slice());
                low_sum(self.address(number), *beyond as usize)
            }
            Symbol::Error(name) => low_sum(self.errors.find(name.as_slice()), 1),
        }
    }

    /// The address of the item with this number, and 0 where there is none.
    fn address(&self, number: usize) -> usize
        ensures { result ≡ slice_index self.now.addresses number }
    {
        match self.addresses.as_slice().get(number) {
            Some(address) => *address as usize,
            None => 0,
        }
    }
}

/// The low 32 bits of a sum.
pub fn low_sum(a: usize, b: usize) -> u32
    ensures { result ≡ (a + b) % 2 ^ 32 }
{
    ((a as u128 + b as u128) % (1 << 32)) as u32
}

/// An instruction with a number as the operand that linking fills in. One that has no such operand
/// is left as it is.
pub fn with_operand(n: u32, instr: Instr) -> Instr
    ensures { result ≡ with_operand n instr }
{
    match instr {
        Instr::Call(_) => Instr::Call(n),
        Instr::LinkedConst(_) => Instr::LinkedConst(n.cast_signed()),
        other => other,
    }
}

// What is known by a spelling, and copies of what is linked.
ghost use Rattle.std.specs.Prelude.{◌≡◌, List, ℕ, IfOk, map};

use crate::distinct::Keyed;
use crate::named::{Function, Item};
use crate::names::Names;
use std::alloc::{AllocError, Global};
use wasm_form::ExternFunction;
use zw_base::Bytes;

/// What has a spelling.
pub trait Spelled {
    /// The spelling.
    ghost spelling: { Self → List ℕ };

    fn spelling_bytes(&self) -> &[u8]
        ensures { result.now ≡ spelling self.now };
}

impl Spelled for Function {
    ghost spelling = { λ f. f.spelling };

    fn spelling_bytes(&self) -> &[u8] {
        self.spelling.as_slice()
    }
}

impl Spelled for Item {
    ghost spelling = { λ i. i.spelling };

    fn spelling_bytes(&self) -> &[u8] {
        self.spelling.as_slice()
    }
}

impl Spelled for ExternFunction {
    ghost spelling = { λ e. e.spelling };

    fn spelling_bytes(&self) -> &[u8] {
        self.spelling.as_slice()
    }
}

impl Spelled for Bytes {
    ghost spelling = { λ b. b };

    fn spelling_bytes(&self) -> &[u8] {
        self.as_slice()
    }
}

/// The spellings of values, in their order.
pub fn names_of<T: Spelled>(alloc: Global, values: &[T]) -> Result<Names, AllocError>
    ensures { IfOk result (λ n. n ≡ map T.spelling values.now) }
{
    let mut names = Names::new(alloc);
    for value in values {
        names = names.with(alloc, value.spelling_bytes())?;
    }
    Ok(names)
}

/// The same bytes.
pub fn copy_bytes(alloc: Global, bytes: &Bytes) -> Result<Bytes, AllocError>
    ensures { IfOk result (λ b. b ≡ bytes.now) }
{
    Ok(Bytes::of(Vec::from_slice(alloc, bytes.as_slice())?))
}

impl Keyed for ExternFunction {
    ghost key = { λ e. e.spelling };

    fn key_bytes(&self, alloc: Global) -> Result<Bytes, AllocError> {
        copy_bytes(alloc, &self.spelling)
    }

    fn copied(&self, alloc: Global) -> Result<ExternFunction, AllocError> {
        Ok(ExternFunction {
            spelling: copy_bytes(alloc, &self.spelling)?,
            module_name: copy_bytes(alloc, &self.module_name)?,
            name: copy_bytes(alloc, &self.name)?,
            kind: self.kind.copied(alloc)?,
        })
    }
}

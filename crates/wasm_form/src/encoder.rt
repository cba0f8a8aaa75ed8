// The encoding of a whole module.
ghost use Rattle.std.specs.Prelude.{◌≡◌, ◌≤◌, ◌<◌, ◌++◌, length, OnOk, OnErr, Err};
ghost use Rattle.wasm_form.specs.Binary.{header_bytes, section_bytes, module_bytes};
ghost use Rattle.wasm_form.specs.declared.encoder.EncodeFault.TheVariants.{OutOfMemory};

use crate::module::Module;
use crate::parts::{Encode, put_byte, put_len, put_vector};
use std::alloc::{AllocError, Global};
use thiserror::Error;
use zw_bytes::ByteBuf;

/// Why a module has no encoding.
#[derive(Clone, Copy, Debug, PartialEq, Eq, Error)]
pub enum EncodeFault {
    #[error("the module is longer than 268,435,456 bytes")]
    TooLarge,
    #[error("out of memory")]
    OutOfMemory,
}

impl From<AllocError> for EncodeFault {
    ghost from_gives = { λ _ e. e ≡ OutOfMemory };

    fn from(_e: AllocError) -> EncodeFault {
        EncodeFault::OutOfMemory
    }
}

/// The most bytes of a module.
pub const MOST_BYTES: usize = 268_435_456;

/// Appends the bytes of a module. `TooLarge` comes exactly above 268,435,456 bytes. A refusal leaves
/// the whole buffer, the room included.
pub fn encode(alloc: Global, m: &Module, into: &mut ByteBuf) -> Result<(), EncodeFault>
    ensures ok { OnOk result (into.new.bytes ≡ into.old.bytes ++ module_bytes m.now) }
    ensures fits { OnOk result (length (module_bytes m.now) ≤ MOST_BYTES) }
    ensures too_large { result ≡ Err EncodeFault.TooLarge → MOST_BYTES < length (module_bytes m.now) }
    ensures err { OnErr result (into.new ≡ into.old) }
{
    let mut out = ByteBuf::with_room(alloc, HEADER.len())?;
    out.put_slice(&HEADER)?;
    put_sections(alloc, m, &mut out)?;
    if out.len() > MOST_BYTES {
        return Err(EncodeFault::TooLarge);
    }
    into.put_slice(out.as_slice())?;
    Ok(())
}

/// The magic number and the version.
const HEADER: [u8; 8] = [0x00, 0x61, 0x73, 0x6d, 0x01, 0x00, 0x00, 0x00];

/// Appends the sections of a module.
fn put_sections(alloc: Global, m: &Module, out: &mut ByteBuf) -> Result<(), AllocError>
    requires { out.old.bytes ≡ header_bytes }
    ensures { OnOk result (out.new.bytes ≡ module_bytes m.now) }
{
    put_section(alloc, 1, m.types.as_slice(), out)?;
    put_section(alloc, 2, m.imports.as_slice(), out)?;
    put_section(alloc, 3, m.functions.as_slice(), out)?;
    put_section(alloc, 5, m.memories.as_slice(), out)?;
    put_section(alloc, 6, m.globals.as_slice(), out)?;
    put_section(alloc, 7, m.exports.as_slice(), out)?;
    put_section(alloc, 10, m.codes.as_slice(), out)?;
    put_section(alloc, 11, m.segments.as_slice(), out)
}

/// Appends a section, unless it has no entry.
fn put_section<T: Encode>(
    alloc: Global,
    id: u8,
    entries: &[T],
    out: &mut ByteBuf,
) -> Result<(), AllocError>
    ensures { OnOk result (out.new.bytes ≡ out.old.bytes ++ section_bytes id T.bytes entries.now) }
{
    if entries.is_empty() {
        return Ok(());
    }
    let mut content = ByteBuf::with_room(alloc, 0)?;
    put_vector(alloc, entries, &mut content)?;
    put_byte(id, out)?;
    put_len(content.len(), out)?;
    out.put_slice(content.as_slice())
}

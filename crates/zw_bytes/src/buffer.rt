// The buffer: bytes behind room that was taken beforehand.
ghost use Rattle.std.specs.Prelude.{◌≡◌, ◌+◌, ◌≤◌, ◌<◌, [], ◌∷◌, ◌++◌, length, ◌↔◌, IsTrue, IfOk, OnOk, OnErr};

use std::alloc::{AllocError, Global};
use std::marker::Model;

/// Bytes, and room for more that was taken beforehand.
#[derive(Debug, Drop)]
pub struct ByteBuf {
    inner: Vec<u8>,
}

impl Model for ByteBuf {
    ghost use Rattle.std.specs.Prelude.{◌-◌};
    ghost use Rattle.std.specs.Vec.{vec_len, vec_capacity};
    ghost use Rattle.zw_bytes.specs.Buffer.{Buffer};

    ghost Value = { Buffer };

    ghost view = { λ b. record { bytes = b.inner.items; spare = vec_capacity b.inner - vec_len b.inner } };
}

impl ByteBuf {
    /// An empty buffer that takes at least `n` bytes. Takes memory only here and in `reserve`.
    pub fn with_room(alloc: Global, n: usize) -> Result<ByteBuf, AllocError>
        ensures empty { IfOk result (λ b. b.bytes ≡ []) }
        ensures room { IfOk result (λ b. n ≤ b.spare) }
    {
        let inner = Vec::with_capacity(alloc, n)?;
        Ok(ByteBuf { inner })
    }

    /// Makes room for at least `n` more bytes. An `Err` changes nothing, the room included.
    pub fn reserve(&mut self, n: usize) -> Result<(), AllocError>
        ensures bytes { self.new.bytes ≡ self.old.bytes }
        ensures room { OnOk result (n ≤ self.new.spare) }
        ensures err { OnErr result (self.new ≡ self.old) }
    {
        self.inner.reserve(n)
    }

    /// Appends one byte. Takes no memory.
    pub fn put(&mut self, b: u8)
        requires { 1 ≤ self.old.spare }
        ensures bytes { self.new.bytes ≡ self.old.bytes ++ b ∷ [] }
        ensures spare { self.new.spare + 1 ≡ self.old.spare }
    {
        self.inner.push_reserved(b);
    }

    /// Appends bytes, for which it makes room. An `Err` changes nothing, the room included.
    pub fn put_slice(&mut self, bytes: &[u8]) -> Result<(), AllocError>
        ensures ok { OnOk result (self.new.bytes ≡ self.old.bytes ++ bytes.now) }
        ensures err { OnErr result (self.new ≡ self.old) }
    {
        self.reserve(bytes.len())?;
        self.inner.extend_from_slice(bytes)
    }

    pub fn len(&self) -> usize
        ensures { result ≡ length self.now.bytes }
    {
        self.inner.len()
    }

    pub fn is_empty(&self) -> bool
        ensures { IsTrue result ↔ (self.now.bytes ≡ []) }
    {
        self.inner.is_empty()
    }

    pub fn as_slice(&self) -> &[u8]
        ensures { result.now ≡ self.now.bytes }
    {
        self.inner.as_slice()
    }

    /// The bytes alone; the room goes.
    pub fn into_vec(self) -> Vec<u8>
        ensures { result.items ≡ self.bytes }
    {
        let ByteBuf { inner } = self;
        inner
    }
}

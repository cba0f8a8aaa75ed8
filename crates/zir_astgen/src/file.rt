// What is known of a file, and where a part of it stands.
ghost use Rattle.std.specs.Prelude.{◌≡◌, IfOk, slice_get};
ghost use Rattle.zir_astgen.specs.Files as spec;
ghost use Rattle.zir_astgen.specs.Filing.{file_known};
ghost use Rattle.zir_astgen.specs.Site.{bytes_of_name, name_by, written_at};

use crate::calls::bytes_at;
use crate::captured::Captured;
use crate::mentions::Mentions;
use crate::places::Places;
use std::alloc::{AllocError, Global};
use zig_tree::Token;
use zir_form::name_of;
use zir_scope::Outline;
use zw_base::Bytes;

/// A file with what scoping found in it.
#[derive(Debug, Drop)]
pub struct FileSource<'a> {
    pub alloc: Global,
    pub text: &'a [u8],
    pub outline: &'a Outline<'a>,
    /// What stands at its tokens, in the order of the text.
    pub events: &'a Mentions<'a>,
    /// What its containers capture.
    pub captures: &'a Captured<'a>,
}

/// Where a part stands: the container that it is a member of, by its keyword, 0 for the file; the tokens
/// that begin the members of the containers around, the file's first; the locals that the container
/// captures; the declaration that it lies in, by the token of its name, and the containers of that
/// declaration.
#[derive(Debug, Drop)]
pub struct Location<'a> {
    pub container: u32,
    pub around: &'a Places,
    pub captured: &'a Places,
    pub owner: u32,
    pub containers: &'a Places,
}

/// The name at a token; one that isn't there has none.
pub fn name_by(
    alloc: Global,
    text: &[u8],
    tokens: &[Token],
    token: u32,
) -> Result<Bytes, AllocError>
    ensures { IfOk result (λ name. name ≡ name_by text.now (slice_get tokens.now token)) }
{
    match tokens.get(token as usize) {
        Some(token) => name_of(alloc, text, token),
        None => Ok(Bytes::of(Vec::new(alloc))),
    }
}

impl FileSource<'_> {
    /// Where a token begins.
    #[tactic(auto, unfolding(crate::specs::Files::start_of))]
    pub fn start_of(&self, token: u32) -> u32
        ensures { result ≡ spec.start_of (file_known self.now) token }
    {
        match self.outline.tokens.get(token as usize) {
            Some(token) => token.span.start,
            None => 0,
        }
    }

    /// The bytes of a token.
    #[tactic(auto, unfolding(crate::specs::Site::written_at))]
    pub fn written_at(&self, token: u32) -> &[u8]
        ensures { result.now ≡ written_at (file_known self.now) token }
    {
        bytes_at(self.text, self.outline.tokens, token)
    }

    /// The name at a token.
    #[tactic(auto, unfolding(crate::specs::Site::bytes_of_name))]
    pub fn name_at(&self, token: u32) -> Result<Bytes, AllocError>
        ensures { IfOk result (λ name. name ≡ bytes_of_name (file_known self.now) token) }
    {
        name_by(self.alloc, self.text, self.outline.tokens, token)
    }
}

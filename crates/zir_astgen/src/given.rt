// Where a token of the part stands, the name that it is, and which local of the part it declares.
ghost use Rattle.std.specs.Prelude.{◌≡◌, IfOk};
ghost use Rattle.zir_astgen.specs.Names.{name_or_none};
ghost use Rattle.zir_astgen.specs.Site as spec;
ghost use Rattle.zir_astgen.specs.Writing.{file, site};

use crate::file::name_by;
use crate::writer::Writer;
use std::alloc::AllocError;
use zw_base::Bytes;

impl Writer<'_> {
    /// How far a token stands from the part's first one, in bytes.
    #[tactic(auto, unfolding(crate::specs::Site::offset))]
    pub fn offset(&self, token: u32) -> u32
        ensures { result ≡ spec.offset (file self.now) (site self.now) token }
    {
        match self.source.outline.tokens.get(token as usize) {
            Some(token) => token.span.start.saturating_sub(self.source.part.origin),
            None => 0,
        }
    }

    /// The name at a token.
    #[tactic(auto, unfolding(crate::specs::Site::bytes_of_name))]
    pub fn bytes_of_name(&self, token: u32) -> Result<Bytes, AllocError>
        ensures { IfOk result (λ name. name ≡ spec.bytes_of_name (file self.now) token) }
    {
        name_by(
            self.alloc,
            self.source.text,
            self.source.outline.tokens,
            token,
        )
    }

    /// The name at a token that may be there.
    pub fn name_or_none(&self, token: Option<u32>) -> Result<Bytes, AllocError>
        ensures { IfOk result (λ name. name ≡ name_or_none (file self.now) token) }
    {
        match token {
            Some(token) => self.bytes_of_name(token),
            None => Ok(Bytes::of(Vec::new(self.alloc))),
        }
    }

    /// Which local of the part a token declares.
    pub fn local_number(&self, token: u32) -> Result<Option<u32>, AllocError>
        ensures { IfOk result (λ number. number ≡ spec.place_in (site self.now).locals token) }
    {
        Ok(self.source.part.locals.find(token))
    }
}

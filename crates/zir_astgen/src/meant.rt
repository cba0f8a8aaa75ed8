// What is written at a token, and what a name stands for.
ghost use Rattle.std.specs.Prelude.{◌≡◌, IfOk};
ghost use Rattle.zir_form.specs.Core as core;
ghost use Rattle.zir_form.specs.Primitives.{primitive_of};
ghost use Rattle.zir_astgen.specs.Firsts.{Adds, AddsAll};
ghost use Rattle.zir_astgen.specs.Site as spec;
ghost use Rattle.zir_astgen.specs.Statements.{container_at};
ghost use Rattle.zir_astgen.specs.Writing.{file, site, trees};

use crate::calls::bytes_at;
use crate::writer::{MISSING, Writer};
use std::alloc::AllocError;
use zir_form::{Form, primitive_of};
use zir_scope::Target;
use zw_base::Seq;

impl Writer<'_> {
    /// The bytes of a token.
    #[tactic(auto, unfolding(crate::specs::Site::written_at))]
    pub fn written_at(&self, token: u32) -> &[u8]
        ensures { result.now ≡ spec.written_at (file self.now) token }
    {
        bytes_at(self.source.text, self.source.outline.tokens, token)
    }

    /// A local of the part, or one that the container around it captures.
    #[tactic(auto, using(crate::proofs::AddLemmas::add_steps, crate::proofs::AddLemmas::first_steps), unfolding(crate::specs::Site::local_at, zir_form::specs::Lines::over_cores))]
    pub fn local_at(&mut self, place: u32, local: u32) -> Result<u32, AllocError>
        ensures tree { IfOk result (Adds (trees self.old) (trees self.new) (spec.local_at (site self.old) place local)) }
        ensures source { self.new.source ≡ self.old.source }
    {
        match self.source.part.locals.find(local) {
            Some(number) => self.put(Form::Local { place, number }),
            None => match self.source.part.captured.find(local) {
                Some(number) => self.put(Form::Captured { place, number }),
                None => Ok(MISSING),
            },
        }
    }

    /// The name at a token, as a declaration of the container whose members a token begins.
    #[tactic(auto, using(crate::proofs::AddLemmas::add_steps, crate::proofs::AddLemmas::first_steps), unfolding(zir_form::specs::Lines::over_cores))]
    fn declared_at(&mut self, token: u32, container: u32) -> Result<u32, AllocError>
        ensures tree { IfOk result (Adds (trees self.old) (trees self.new) (spec.declared_at (spec.offset (file self.old) (site self.old) token) (spec.bytes_of_name (file self.old) token) (spec.place_in (site self.old).around container))) }
        ensures source { self.new.source ≡ self.old.source }
    {
        match self.source.part.around.find(container) {
            Some(depth) => {
                let place = self.offset(token);
                let name = self.bytes_of_name(token)?;
                self.put(Form::Declared { place, depth, name })
            }
            None => Ok(MISSING),
        }
    }

    /// The name at a token, as a primitive.
    #[tactic(auto, using(crate::proofs::AddLemmas::add_steps, crate::proofs::AddLemmas::first_steps), unfolding(zir_form::specs::Lines::over_cores))]
    fn primitive_at(&mut self, token: u32) -> Result<u32, AllocError>
        ensures tree { IfOk result (Adds (trees self.old) (trees self.new) (spec.primitive_at (spec.offset (file self.old) (site self.old) token) (primitive_of (spec.bytes_of_name (file self.old) token)))) }
        ensures source { self.new.source ≡ self.old.source }
    {
        let place = self.offset(token);
        let name = self.bytes_of_name(token)?;
        match primitive_of(name.as_slice()) {
            Some(primitive) => self.put(Form::Primitive { place, primitive }),
            None => Ok(MISSING),
        }
    }

    /// The name at a token, as what it stands for.
    #[tactic(auto, using(crate::proofs::AddLemmas::add_steps, crate::proofs::AddLemmas::first_steps), unfolding(crate::specs::Site::named))]
    pub fn named(&mut self, token: u32) -> Result<u32, AllocError>
        ensures tree { IfOk result (Adds (trees self.old) (trees self.new) (spec.named (file self.old) (site self.old) token)) }
        ensures source { self.new.source ≡ self.old.source }
    {
        match self.source.events.target(token) {
            Some(Target::Local(local)) => {
                let place = self.offset(token);
                self.local_at(place, local)
            }
            Some(Target::Declared(container)) => self.declared_at(token, container),
            Some(Target::Primitive) => self.primitive_at(token),
            Some(Target::Unknown) => Ok(MISSING),
            None => Ok(MISSING),
        }
    }

    /// The targets of captured locals, in order.
    #[tactic(auto, unfolding(crate::specs::Site::captures_at))]
    pub fn captures_at(&mut self, place: u32, locals: &[u32]) -> Result<Vec<u32>, AllocError>
        ensures trees { IfOk result (λ v. AddsAll (trees self.old) (trees self.new) (spec.captures_at (site self.old) place locals.now) v.items) }
        ensures source { self.new.source ≡ self.old.source }
    {
        let mut lines = Vec::new(self.alloc);
        let mut rest = locals;
        while let [local, more @ ..] = rest {
            let line = self.local_at(place, *local)?;
            lines.push(line)?;
            rest = more;
        }
        Ok(lines)
    }

    /// A container within the part, with the targets of what it captures.
    #[tactic(auto, using(crate::proofs::AddLemmas::add_steps, crate::proofs::AddLemmas::first_steps), unfolding(crate::specs::Statements::container_at, zir_form::specs::Lines::over_cores))]
    pub fn container_at(&mut self, token: u32) -> Result<u32, AllocError>
        ensures tree { IfOk result (Adds (trees self.old) (trees self.new) (container_at (file self.old) (site self.old) token)) }
        ensures source { self.new.source ≡ self.old.source }
    {
        let place = self.offset(token);
        match self.source.part.containers.find(token) {
            Some(ordinal) => {
                let known = self.source.captures;
                let captures = self.captures_at(place, known.locals(token))?;
                self.put(Form::Container {
                    place,
                    ordinal,
                    captures: Seq::of(captures),
                })
            }
            None => Ok(MISSING),
        }
    }
}

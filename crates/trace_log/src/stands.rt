// Where containers stand in the files of a snapshot.
ghost use Rattle.std.specs.Prelude.{◌≡◌, Some, IfOk};
ghost use Rattle.std.specs.Option.{option_map, option_and_then};
ghost use Rattle.zir_form.specs.File.{container_of, container_of_block};
ghost use Rattle.zir_form.specs.Front.{front_in};
ghost use Rattle.type_form.specs.Known.{IsInjective};
ghost use Rattle.type_form.specs.Means.{IsTy, ty_at, IsDecl, decl_at, IsBytes, bytes_at};
ghost use Rattle.type_form.specs.Pool.{Reads};
ghost use Rattle.trace_log.specs.Files.{declared_stand, file_stand, stand_in, stand_named, stand_of};
ghost use Rattle.trace_log.specs.Snapshots.{AreAnswers, files_at, front_at, stand_at};

use crate::answers::Answers;
use crate::names::read_bytes;
use std::alloc::{AllocError, Global};
use type_form::{Index, Key, Keys};
use type_keys::{decl_key, ty_key};
use zir_form::{ContainerRef, Front};

/// A container of a file: the number of the file's front, and the container there.
#[derive(Clone, Copy, Debug, PartialEq, Eq)]
pub(crate) struct Place {
    pub front: u32,
    pub container: ContainerRef,
}

/// The container of an ordinal in a declaration of a container.
#[tactic(auto, unfolding(zir_form::specs::Front::front_in))]
fn container_in(
    front: &Front,
    container: ContainerRef,
    name: &[u8],
    ordinal: u32,
) -> Option<ContainerRef>
    ensures { result ≡ option_and_then (λ core. container_of core container name.now ordinal) (front_in front.now).core }
{
    match &front.zir {
        Some(zir) => zir.container_in(container, name, ordinal),
        None => None,
    }
}

/// The container of an ordinal in a block.
#[tactic(auto, unfolding(zir_form::specs::Front::front_in))]
fn container_in_block(front: &Front, number: u32, ordinal: u32) -> Option<ContainerRef>
    ensures { result ≡ option_and_then (λ core. container_of_block core number ordinal) (front_in front.now).core }
{
    match &front.zir {
        Some(zir) => zir.container_in_block(number, ordinal),
        None => None,
    }
}

impl Answers {
    /// A file as the container 0 of itself, by the index of its path.
    fn file_place(&self, path: Index) -> Option<Place>
        ensures { stand_at self.now result ≡ option_map (λ f. file_stand (front_in f)) (front_at self.now path) }
    {
        match self.file(path) {
            Some(front) => Some(Place {
                front,
                container: ContainerRef(0),
            }),
            None => None,
        }
    }

    /// The container of an ordinal in a block of a file, by the index of its path.
    fn block_place(&self, file: Index, number: u32, ordinal: u32) -> Option<Place>
        ensures { stand_at self.now result ≡ option_and_then (λ f. stand_in (λ core. container_of_block core number ordinal) (front_in f)) (front_at self.now file) }
    {
        let number_of_front = self.file(file)?;
        let front = self.front(number_of_front)?;
        let container = container_in_block(front.get(), number, ordinal)?;
        Some(Place {
            front: number_of_front,
            container,
        })
    }

    /// The container of an ordinal in a declaration of a container.
    fn named_place(&self, place: Place, name: &[u8], ordinal: u32) -> Option<Place>
        ensures { stand_at self.now result ≡ option_and_then (stand_named name.now ordinal) (stand_at self.now (Some place)) }
    {
        let front = self.front(place.front)?;
        let container = container_in(front.get(), place.container, name, ordinal)?;
        Some(Place {
            front: place.front,
            container,
        })
    }
}

impl Answers {
    /// Where a container or a file stands, by the index of its type. It goes down the containers
    /// around, as deep as they are.
    #[cycle(stands)]
    #[tactic(auto, using(type_form::specs::declared::tree::Arg::the_lemmas, crate::proofs::StandLemmas::file_steps))]
    pub(crate) fn place<P: Keys>(
        &self,
        alloc: Global,
        ty: Index,
        p: &mut P,
    ) -> Result<Option<Place>, AllocError>
        requires ty_known { IsTy (P.known p.old) ty }
        requires one { IsInjective (P.known p.old) }
        requires answers { AreAnswers (P.known p.old) self.now }
        ensures reads { Reads P.known P.home P.fulls p.old p.new }
        ensures agrees { IsInjective (P.known p.new) }
        ensures place { IfOk result (λ r. stand_at self.now r ≡ stand_of (files_at (P.known p.old) self.now) (ty_at (P.known p.old) ty)) }
    {
        match ty_key(ty, p) {
            Key::FileType { path } => Ok(self.file_place(path)),
            Key::ContainerType { decl, ordinal, .. } => {
                let place = self.declared_place(alloc, decl, ordinal, p)?;
                Ok(place)
            }
            _ => Ok(None),
        }
    }

    /// Where the container of an ordinal in a declaration stands.
    #[cycle(stands)]
    #[tactic(auto, using(type_form::specs::declared::tree::Arg::the_lemmas, crate::proofs::StandLemmas::file_steps))]
    fn declared_place<P: Keys>(
        &self,
        alloc: Global,
        decl: Index,
        ordinal: u32,
        p: &mut P,
    ) -> Result<Option<Place>, AllocError>
        requires decl_known { IsDecl (P.known p.old) decl }
        requires one { IsInjective (P.known p.old) }
        requires answers { AreAnswers (P.known p.old) self.now }
        ensures reads { Reads P.known P.home P.fulls p.old p.new }
        ensures agrees { IsInjective (P.known p.new) }
        ensures place { IfOk result (λ r. stand_at self.now r ≡ declared_stand (files_at (P.known p.old) self.now) (decl_at (P.known p.old) decl) ordinal) }
    {
        match decl_key(decl, p) {
            Key::NamedDecl { container, name } => match self.place(alloc, container, p)? {
                Some(place) => {
                    let name = read_bytes(alloc, name, p)?;
                    Ok(self.named_place(place, name.as_slice(), ordinal))
                }
                None => Ok(None),
            },
            Key::ComptimeDecl { file, number } => Ok(self.block_place(file, number, ordinal)),
            _ => Ok(None),
        }
    }
}

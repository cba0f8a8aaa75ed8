// Where what a diagnostic points at stands in its file.
ghost use Rattle.std.specs.Prelude.{◌≡◌, ◌+◌, Some, IfOk, slice_get};
ghost use Rattle.std.specs.Option.{option_copied, option_map, option_and_then};
ghost use Rattle.zir_form.specs.Front.{front_in};
ghost use Rattle.zir_form.specs.Tables.{file_in};
ghost use Rattle.type_form.specs.Known.{IsInjective};
ghost use Rattle.type_form.specs.Means.{IsTy, ty_at, IsDecl, decl_at};
ghost use Rattle.type_form.specs.Pool.{Reads};
ghost use Rattle.type_form.specs.declared.tree.Arg.TheViews.{out-DeclPath};
ghost use Rattle.elab_form.specs.Questions as plain;
ghost use Rattle.trace_log.specs.Places.{decl_part, decl_start, extent_part, file_part, name_start_answer, part_by, part_in, spot_offset, stand_name_start, start_answer, word_start_answer, word_start_of};
ghost use Rattle.trace_log.specs.Readings.{IsPart, part_at, IsSpot, spot_at};
ghost use Rattle.trace_log.specs.Snapshots.{AreAnswers, files_at, front_at, stand_at};

use crate::answers::Answers;
use crate::names::read_bytes;
use crate::question::TextPart;
use crate::replies::{Extent, part_of};
use crate::result::Spot;
use crate::stands::Place;
use std::alloc::{AllocError, Global};
use type_form::{Index, Key, Keys};
use type_keys::decl_key;
use zir_form::{BlockRow, ContainerRef, Front, Part, Zir};

/// A part of a file: the number of the file's front, and the part there.
#[derive(Debug, Drop)]
pub(crate) struct PartPlace {
    pub front: u32,
    pub part: Part,
}

/// Where a part of a front begins.
#[tactic(auto, unfolding(zir_form::specs::Front::front_in))]
fn start_in(front: &Front, part: &Part) -> Option<u32>
    ensures { result ≡ start_answer (part_by (front_in front.now) part.now) }
{
    match &front.zir {
        Some(zir) => zir.part_start(part),
        None => None,
    }
}

/// Where the name of a declaration of a front begins.
#[tactic(auto, unfolding(zir_form::specs::Front::front_in))]
fn name_start_in(front: &Front, container: ContainerRef, name: &[u8]) -> Option<u32>
    ensures { result ≡ name_start_answer (front_in front.now) container name.now }
{
    match &front.zir {
        Some(zir) => zir.name_start(container, name),
        None => None,
    }
}

/// The block with a number.
fn block_at(rows: &[BlockRow], at: u32) -> Option<&BlockRow>
    ensures { option_copied result ≡ slice_get rows.now at }
{
    rows.get(at as usize)
}

/// Where the word of a block begins.
#[tactic(auto, using(crate::proofs::PlaceLemmas::word_row))]
fn word_start_by(zir: &Zir, number: u32) -> Option<u32>
    ensures { result ≡ word_start_of (file_in zir.now) number }
{
    match block_at(zir.blocks(), number) {
        Some(row) => Some(row.word_start),
        None => None,
    }
}

/// Where the word of a block of a front begins.
#[tactic(auto, unfolding(zir_form::specs::Front::front_in))]
fn word_start_in(front: &Front, number: u32) -> Option<u32>
    ensures { result ≡ word_start_answer (front_in front.now) number }
{
    match &front.zir {
        Some(zir) => word_start_by(zir, number),
        None => None,
    }
}

impl Answers {
    /// A part of a file, by the index of its path.
    fn part_of_file(&self, path: Index, part: Part) -> Option<PartPlace>
        ensures { part_in self.now result ≡ option_map (λ f. part_by (front_in f) part) (front_at self.now path) }
    {
        let front = self.file(path)?;
        Some(PartPlace { front, part })
    }

    /// A part of a declaration.
    #[tactic(auto, using(crate::proofs::StandLemmas::file_steps))]
    fn declared_part<P: Keys>(
        &self,
        alloc: Global,
        decl: Index,
        extent: Extent,
        p: &mut P,
    ) -> Result<Option<PartPlace>, AllocError>
        requires decl_known { IsDecl (P.known p.old) decl }
        requires one { IsInjective (P.known p.old) }
        requires answers { AreAnswers (P.known p.old) self.now }
        ensures reads { Reads P.known P.home P.fulls p.old p.new }
        ensures agrees { IsInjective (P.known p.new) }
        ensures part { IfOk result (λ r. part_in self.now r ≡ decl_part (files_at (P.known p.old) self.now) (extent_part extent) (out-DeclPath (decl_at (P.known p.old) decl))) }
    {
        match decl_key(decl, p) {
            Key::NamedDecl { container, name } => match self.place(alloc, container, p)? {
                Some(place) => {
                    let name = read_bytes(alloc, name, p)?;
                    let part = part_of(extent, place.container, name);
                    Ok(Some(PartPlace {
                        front: place.front,
                        part,
                    }))
                }
                None => Ok(None),
            },
            _ => Ok(None),
        }
    }

    /// The fields of a container.
    #[tactic(auto, using(crate::proofs::PlaceLemmas::places_of_fields))]
    fn fields_part<P: Keys>(
        &self,
        alloc: Global,
        ty: Index,
        p: &mut P,
    ) -> Result<Option<PartPlace>, AllocError>
        requires ty_known { IsTy (P.known p.old) ty }
        requires one { IsInjective (P.known p.old) }
        requires answers { AreAnswers (P.known p.old) self.now }
        ensures reads { Reads P.known P.home P.fulls p.old p.new }
        ensures agrees { IsInjective (P.known p.new) }
        ensures part { IfOk result (λ r. part_in self.now r ≡ file_part (files_at (P.known p.old) self.now) (plain.TextPart.fields (ty_at (P.known p.old) ty))) }
    {
        match self.place(alloc, ty, p)? {
            Some(place) => {
                let part = Part::Fields {
                    container: place.container,
                };
                Ok(Some(PartPlace {
                    front: place.front,
                    part,
                }))
            }
            None => Ok(None),
        }
    }

    /// The file of a part and the part there, if there is such a file or container.
    #[tactic(auto, using(crate::proofs::StandLemmas::file_steps))]
    fn part_place<P: Keys>(
        &self,
        alloc: Global,
        part: TextPart,
        p: &mut P,
    ) -> Result<Option<PartPlace>, AllocError>
        requires part_known { IsPart (P.known p.old) part }
        requires one { IsInjective (P.known p.old) }
        requires answers { AreAnswers (P.known p.old) self.now }
        ensures reads { Reads P.known P.home P.fulls p.old p.new }
        ensures agrees { IsInjective (P.known p.new) }
        ensures part { IfOk result (λ r. part_in self.now r ≡ file_part (files_at (P.known p.old) self.now) (part_at (P.known p.old) part)) }
    {
        match part {
            TextPart::Head(decl) => self.declared_part(alloc, decl, Extent::Head, p),
            TextPart::Whole(decl) => self.declared_part(alloc, decl, Extent::Whole, p),
            TextPart::Fields(ty) => self.fields_part(alloc, ty, p),
            TextPart::Block { file, number } => {
                Ok(self.part_of_file(file, Part::Block { number }))
            }
        }
    }
}

/// A place that is counted from a start.
fn counted_from(start: Option<u32>, place: u32) -> Option<u64>
    ensures { result ≡ option_map (λ s. s + place) start }
{
    match start {
        Some(start) => Some(u64::from(start) + u64::from(place)),
        None => None,
    }
}

/// The same place as a wider number.
fn widened(start: Option<u32>) -> Option<u64>
    ensures { result ≡ start }
{
    match start {
        Some(start) => Some(u64::from(start)),
        None => None,
    }
}

impl Answers {
    /// Where the text of a part begins.
    fn start_at(&self, place: &PartPlace) -> Option<u32>
        ensures { result ≡ option_and_then start_answer (part_in self.now (Some place.now)) }
    {
        let front = self.front(place.front)?;
        start_in(front.get(), &place.part)
    }

    /// Where a place in a part stands.
    fn place_within<P: Keys>(
        &self,
        alloc: Global,
        part: TextPart,
        place: u32,
        p: &mut P,
    ) -> Result<Option<u64>, AllocError>
        requires part_known { IsPart (P.known p.old) part }
        requires one { IsInjective (P.known p.old) }
        requires answers { AreAnswers (P.known p.old) self.now }
        ensures reads { Reads P.known P.home P.fulls p.old p.new }
        ensures agrees { IsInjective (P.known p.new) }
        ensures offset { IfOk result (λ r. r ≡ option_map (λ start. start + place) (option_and_then start_answer (file_part (files_at (P.known p.old) self.now) (part_at (P.known p.old) part)))) }
    {
        match self.part_place(alloc, part, p)? {
            Some(found) => Ok(counted_from(self.start_at(&found), place)),
            None => Ok(None),
        }
    }

    /// Where the name of a declaration begins, by the place of its container.
    fn name_start_at(&self, place: Place, name: &[u8]) -> Option<u32>
        ensures { result ≡ option_and_then (stand_name_start name.now) (stand_at self.now (Some place)) }
    {
        let front = self.front(place.front)?;
        name_start_in(front.get(), place.container, name)
    }

    /// Where the word of a block begins, by the index of its file's path.
    fn word_start_at(&self, file: Index, number: u32) -> Option<u32>
        ensures { result ≡ option_and_then (λ f. word_start_answer (front_in f) number) (front_at self.now file) }
    {
        let number_of_front = self.file(file)?;
        let front = self.front(number_of_front)?;
        word_start_in(front.get(), number)
    }

    /// Where a declaration is shown.
    #[tactic(auto, using(crate::proofs::StandLemmas::file_steps))]
    fn declared_start<P: Keys>(
        &self,
        alloc: Global,
        decl: Index,
        p: &mut P,
    ) -> Result<Option<u32>, AllocError>
        requires decl_known { IsDecl (P.known p.old) decl }
        requires one { IsInjective (P.known p.old) }
        requires answers { AreAnswers (P.known p.old) self.now }
        ensures reads { Reads P.known P.home P.fulls p.old p.new }
        ensures agrees { IsInjective (P.known p.new) }
        ensures start { IfOk result (λ r. r ≡ decl_start (files_at (P.known p.old) self.now) (out-DeclPath (decl_at (P.known p.old) decl))) }
    {
        match decl_key(decl, p) {
            Key::NamedDecl { container, name } => match self.place(alloc, container, p)? {
                Some(place) => {
                    let name = read_bytes(alloc, name, p)?;
                    Ok(self.name_start_at(place, name.as_slice()))
                }
                None => Ok(None),
            },
            Key::ComptimeDecl { file, number } => Ok(self.word_start_at(file, number)),
            _ => Ok(None),
        }
    }

    /// Where what a diagnostic points at stands, in bytes from the start of its file; nothing where
    /// there is no such part, or no such name.
    #[tactic(auto, unfolding(crate::specs::Places::spot_offset))]
    pub fn spot_offset<P: Keys>(
        &self,
        alloc: Global,
        spot: Spot,
        p: &mut P,
    ) -> Result<Option<u64>, AllocError>
        requires spot { IsSpot (P.known p.old) spot }
        requires one { IsInjective (P.known p.old) }
        requires answers { AreAnswers (P.known p.old) self.now }
        ensures reads { Reads P.known P.home P.fulls p.old p.new }
        ensures agrees { IsInjective (P.known p.new) }
        ensures offset { IfOk result (λ r. r ≡ spot_offset (files_at (P.known p.old) self.now) (spot_at (P.known p.old) spot)) }
    {
        match spot {
            Spot::Within { part, place } => {
                let offset = self.place_within(alloc, part, place, p)?;
                Ok(offset)
            }
            Spot::Named(decl) => {
                let start = self.declared_start(alloc, decl, p)?;
                Ok(widened(start))
            }
        }
    }
}

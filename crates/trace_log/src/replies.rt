// What a snapshot answers to questions.
ghost use Rattle.std.specs.Prelude.{◌≡◌, Some, IfOk};
ghost use Rattle.std.specs.Option.{option_map, option_and_then};
ghost use Rattle.zir_form.specs.Front.{front_in, text_answer, name_answer, import_answer};
ghost use Rattle.type_form.specs.Known.{IsInjective};
ghost use Rattle.type_form.specs.Means.{IsTy, ty_at, IsDecl, decl_at, IsBytes, bytes_at};
ghost use Rattle.type_form.specs.Pool.{Reads};
ghost use Rattle.type_form.specs.declared.tree.Arg.TheViews.{out-DeclPath};
ghost use Rattle.elab_form.specs.Questions as plain;
ghost use Rattle.trace_log.specs.Files.{decl_text, text_in, name_in};
ghost use Rattle.trace_log.specs.declared.answer.Answer.{Answer};
ghost use Rattle.trace_log.specs.Readings.{IsPart, part_at, IsQuestion, question_at, IsAnswer, answer_at, tree_at};
ghost use Rattle.trace_log.specs.Snapshots.{AreAnswers, answer_of, declared_part, extent_at, files_at, front_at, front_get, given_at, lines_of, result_get, stand_at};

use crate::answer::{Answer, TreeRef};
use crate::answers::Answers;
use crate::names::read_bytes;
use crate::question::{Question, TextPart, UnitIndex};
use crate::result::UnitResult;
use crate::shared::Shared;
use crate::stands::Place;
use std::alloc::{AllocError, Global};
use type_form::{Index, Key, Keys};
use type_keys::decl_key;
use zir_form::{ContainerRef, FileExports, Front, NameRef, Part};
use zw_base::Bytes;

/// How much of a declaration's text is asked for.
#[derive(Clone, Copy, Debug, PartialEq, Eq)]
pub(crate) enum Extent {
    /// The head of a function.
    Head,
    Whole,
}

/// The part of a declaration that is asked for.
pub(crate) fn part_of(extent: Extent, container: ContainerRef, name: Vec<u8>) -> Part
    ensures { result ≡ declared_part extent container name.items }
{
    let name = Bytes::of(name);
    match extent {
        Extent::Head => Part::Head { container, name },
        Extent::Whole => Part::Whole { container, name },
    }
}

impl Answers {
    /// The text of a part of a front.
    fn front_text(&self, number: u32, part: &Part) -> Option<TreeRef>
        ensures { option_map (tree_at (lines_of self.now)) result ≡ option_and_then (λ f. text_answer (front_in f) part.now) (front_get self.now number) }
    {
        let front = self.front(number)?;
        let found = front.get().part(part)?;
        Some(TreeRef {
            front: number,
            line: found.line,
        })
    }
}

impl Answers {
    /// The text of a part of a file, by the index of its path.
    fn file_text(&self, path: Index, part: &Part) -> Option<TreeRef>
        ensures { option_map (tree_at (lines_of self.now)) result ≡ option_and_then (λ f. text_answer (front_in f) part.now) (front_at self.now path) }
    {
        let number = self.file(path)?;
        self.front_text(number, part)
    }

    /// The text of a declaration.
    fn declared_text<P: Keys>(
        &self,
        alloc: Global,
        decl: Index,
        extent: Extent,
        p: &mut P,
    ) -> Result<Option<TreeRef>, AllocError>
        requires decl_known { IsDecl (P.known p.old) decl }
        requires one { IsInjective (P.known p.old) }
        requires answers { AreAnswers (P.known p.old) self.now }
        ensures reads { Reads P.known P.home P.fulls p.old p.new }
        ensures agrees { IsInjective (P.known p.new) }
        ensures text { IfOk result (λ r. option_map (tree_at (lines_of self.now)) r ≡ decl_text (files_at (P.known p.old) self.now) (extent_at extent) (out-DeclPath (decl_at (P.known p.old) decl))) }
    {
        match decl_key(decl, p) {
            Key::NamedDecl { container, name } => match self.place(alloc, container, p)? {
                Some(place) => {
                    let name = read_bytes(alloc, name, p)?;
                    let part = part_of(extent, place.container, name);
                    Ok(self.front_text(place.front, &part))
                }
                None => Ok(None),
            },
            _ => Ok(None),
        }
    }

    /// The text of the fields of a container.
    fn fields_text<P: Keys>(
        &self,
        alloc: Global,
        ty: Index,
        p: &mut P,
    ) -> Result<Option<TreeRef>, AllocError>
        requires ty_known { IsTy (P.known p.old) ty }
        requires one { IsInjective (P.known p.old) }
        requires answers { AreAnswers (P.known p.old) self.now }
        ensures reads { Reads P.known P.home P.fulls p.old p.new }
        ensures agrees { IsInjective (P.known p.new) }
        ensures text { IfOk result (λ r. option_map (tree_at (lines_of self.now)) r ≡ text_in (files_at (P.known p.old) self.now) (plain.TextPart.fields (ty_at (P.known p.old) ty))) }
    {
        match self.place(alloc, ty, p)? {
            Some(place) => {
                let part = Part::Fields {
                    container: place.container,
                };
                Ok(self.front_text(place.front, &part))
            }
            None => Ok(None),
        }
    }

    /// The text of a part, if there is such a part.
    #[tactic(auto, using(crate::proofs::StandLemmas::file_steps))]
    fn text<P: Keys>(
        &self,
        alloc: Global,
        part: TextPart,
        p: &mut P,
    ) -> Result<Option<TreeRef>, AllocError>
        requires part_known { IsPart (P.known p.old) part }
        requires one { IsInjective (P.known p.old) }
        requires answers { AreAnswers (P.known p.old) self.now }
        ensures reads { Reads P.known P.home P.fulls p.old p.new }
        ensures agrees { IsInjective (P.known p.new) }
        ensures text { IfOk result (λ r. option_map (tree_at (lines_of self.now)) r ≡ text_in (files_at (P.known p.old) self.now) (part_at (P.known p.old) part)) }
    {
        match part {
            TextPart::Head(decl) => self.declared_text(alloc, decl, Extent::Head, p),
            TextPart::Whole(decl) => self.declared_text(alloc, decl, Extent::Whole, p),
            TextPart::Fields(ty) => self.fields_text(alloc, ty, p),
            TextPart::Block { file, number } => Ok(self.file_text(file, &Part::Block { number })),
        }
    }
}

impl Answers {
    /// The declaration of a name in a container of a file.
    fn place_name(&self, place: Place, name: &[u8]) -> Option<NameRef>
        ensures { result ≡ option_and_then (λ s. name_answer s.file s.container name.now) (stand_at self.now (Some place)) }
    {
        let front = self.front(place.front)?;
        front.get().name_in(place.container, name)
    }

    /// The declaration of a name in a container, if it has one.
    fn name<P: Keys>(
        &self,
        alloc: Global,
        container: Index,
        name: Index,
        p: &mut P,
    ) -> Result<Option<NameRef>, AllocError>
        requires ty_known { IsTy (P.known p.old) container }
        requires name_known { IsBytes (P.known p.old) name }
        requires one { IsInjective (P.known p.old) }
        requires answers { AreAnswers (P.known p.old) self.now }
        ensures reads { Reads P.known P.home P.fulls p.old p.new }
        ensures agrees { IsInjective (P.known p.new) }
        ensures name { IfOk result (λ r. r ≡ name_in (files_at (P.known p.old) self.now) (ty_at (P.known p.old) container) (bytes_at (P.known p.old) name)) }
    {
        match self.place(alloc, container, p)? {
            Some(place) => {
                let bytes = read_bytes(alloc, name, p)?;
                Ok(self.place_name(place, bytes.as_slice()))
            }
            None => Ok(None),
        }
    }
}

/// What a front exports, shared.
fn exports_of(alloc: Global, front: &Front) -> Result<Option<Shared<FileExports>>, AllocError>
    ensures { IfOk result (λ r. r ≡ import_answer (front_in front.now)) }
{
    match front.exports(alloc)? {
        Some(exports) => {
            let exports = Shared::new(alloc, exports)?;
            Ok(Some(exports))
        }
        None => Ok(None),
    }
}

impl Answers {
    /// What the front with a number exports.
    fn front_exports(
        &self,
        alloc: Global,
        number: u32,
    ) -> Result<Option<Shared<FileExports>>, AllocError>
        ensures { IfOk result (λ r. r ≡ option_and_then (λ f. import_answer (front_in f)) (front_get self.now number)) }
    {
        match self.front(number) {
            Some(front) => {
                let exports = exports_of(alloc, front.get())?;
                Ok(exports)
            }
            None => Ok(None),
        }
    }

    /// What a file exports, by the index of its path.
    fn file_exports(
        &self,
        alloc: Global,
        path: Index,
    ) -> Result<Option<Shared<FileExports>>, AllocError>
        ensures { IfOk result (λ r. r ≡ option_and_then (λ f. import_answer (front_in f)) (front_at self.now path)) }
    {
        match self.file(path) {
            Some(number) => {
                let exports = self.front_exports(alloc, number)?;
                Ok(exports)
            }
            None => Ok(None),
        }
    }

    /// The result of a unit as an answer, if it is there.
    fn given(&self, unit: UnitIndex) -> Result<Option<Answer>, AllocError>
        ensures { IfOk result (λ r. r ≡ option_map answer_of (result_get self.now unit)) }
    {
        match self.result(unit) {
            Some(found) => {
                let answer = answer_of(found.get())?;
                Ok(Some(answer))
            }
            None => Ok(None),
        }
    }
}

/// A result as an answer. That of a failed unit tells nothing more.
fn answer_of(found: &UnitResult) -> Result<Answer, AllocError>
    ensures { IfOk result (λ a. a ≡ answer_of found.now) }
{
    match found {
        UnitResult::Good(value) => {
            let value = value.share()?;
            Ok(Answer::Given(value))
        }
        UnitResult::Failed(_) => Ok(Answer::Failure),
    }
}

impl Answers {
    /// The answer to a question, if there is one: to one for a result only where that is there.
    pub fn answer<P: Keys>(
        &self,
        alloc: Global,
        question: Question,
        p: &mut P,
    ) -> Result<Option<Answer>, AllocError>
        requires question { IsQuestion (P.known p.old) question }
        requires one { IsInjective (P.known p.old) }
        requires answers { AreAnswers (P.known p.old) self.now }
        ensures reads { Reads P.known P.home P.fulls p.old p.new }
        ensures agrees { IsInjective (P.known p.new) }
        ensures known { IfOk result (λ r. (a : Answer) → r ≡ Some a → IsAnswer (P.known p.old) a) }
        ensures answer { IfOk result (λ r. option_map (answer_at (P.known p.old) (lines_of self.now)) r
            ≡ given_at (P.known p.old) self.now (question_at (P.known p.old) question)) }
    {
        match question {
            Question::Text(part) => {
                let text = self.text(alloc, part, p)?;
                Ok(Some(Answer::Tree(text)))
            }
            Question::Name { container, name } => {
                let declaration = self.name(alloc, container, name, p)?;
                Ok(Some(Answer::Declaration(declaration)))
            }
            Question::Import(path) => {
                let exports = self.file_exports(alloc, path)?;
                Ok(Some(Answer::Exports(exports)))
            }
            Question::Result(unit) => {
                let given = self.given(unit)?;
                Ok(given)
            }
        }
    }
}

// What is left on the way out of a part, and the lines of what then runs.
ghost use Rattle.std.specs.Prelude.{◌≡◌, ◌<◌, ◌++◌, [], length, map, ℕ, Bool, List, IfOk, OnOk, Option, if◌then◌else◌};
ghost use Rattle.zir_form.specs.Core.{Core};
ghost use Rattle.zir_form.specs.Core as core;
ghost use Rattle.zir_form.specs.Lines.{over_cores, tree_at};
ghost use Rattle.zir_astgen.specs.Firsts.{Adds, AreBelow};
ghost use Rattle.zir_astgen.specs.Frames.{level_of, levels_of, returning, stepped, AddsFrames, ExitBelow, FramesBelow, LeavesBelow};
ghost use Rattle.zir_astgen.specs.Leaving.{exit_by, leaves_by};
ghost use Rattle.zir_astgen.specs.Levels as spec;
ghost use Rattle.zir_astgen.specs.Levels.{Exit, Level};
ghost use Rattle.zir_astgen.specs.Writing.{trees};

use crate::exit::ExitLines;
use crate::stage::Layer;
use crate::writer::{ABSENT, Writer};
use std::alloc::AllocError;
use zir_form::Form;
use zw_base::Seq;

/// A function, a loop or a block around a place, with the lines of what its statements so far put off:
/// by `defer`, and by `defer` and `errdefer` together.
#[derive(Clone, Copy, Debug)]
pub struct Frame {
    pub layer: Layer,
    pub defers: u32,
    pub all: u32,
}

/// The frames around a place, the innermost first.
#[derive(Clone, Copy)]
pub enum Frames<'a> {
    Outside,
    Within(Frame, &'a Frames<'a>),
}

/// What a frame is to a `break` or a `continue`.
#[derive(Clone, Copy, Debug)]
pub enum Step {
    /// It goes nowhere.
    Nowhere,
    /// It goes here.
    Here,
    /// It goes further, past so many of what it can leave.
    Past { count: u32 },
}

/// A frame in which nothing is put off yet.
pub fn frame_of(layer: Layer) -> Frame
    ensures { result ≡ record { layer = layer; defers = 1; all = 1 } }
{
    Frame {
        layer,
        defers: ABSENT,
        all: ABSENT,
    }
}

/// Whether a label is this one.
fn is_label(own: u32, label: Option<u32>) -> bool
    ensures { result ≡ spec.is_label own label }
{
    match label {
        Some(label) => own == label,
        None => false,
    }
}

/// Whether an exit with this label means a loop with this one.
fn is_meant(label: Option<u32>, own: Option<u32>) -> bool
    ensures { result ≡ spec.is_meant label own }
{
    match label {
        Some(label) => is_label(label, own),
        None => true,
    }
}

/// Whether a `break`, or a `continue` (`on`), with this label or none passes a layer.
fn step_of(on: bool, label: Option<u32>, layer: Layer) -> Step
    ensures { (l : Level) → (outer : Option Exit) → spec.out_of on label l layer outer ≡ stepped result l.defers outer }
{
    match layer {
        Layer::Function | Layer::Wall => Step::Nowhere,
        Layer::Loop(own) if is_meant(label, own) => Step::Here,
        Layer::Labelled(own) if is_label(own, label) => {
            if on { Step::Nowhere } else { Step::Here }
        }
        Layer::Loop(_) | Layer::Labelled(_) => Step::Past { count: 1 },
        Layer::Block => Step::Past { count: 0 },
    }
}

/// Whether a `return` passes a layer.
fn return_step(layer: Layer) -> Step
    ensures { (v : Bool) → (l : Level) → (outer : Option (List Core)) → spec.left_at v l layer outer ≡ returning result (spec.run_of v l) outer }
{
    match layer {
        Layer::Function => Step::Here,
        Layer::Wall => Step::Nowhere,
        Layer::Loop(_) => Step::Past { count: 0 },
        Layer::Labelled(_) => Step::Past { count: 0 },
        Layer::Block => Step::Past { count: 0 },
    }
}

/// The line of what runs as a function returns through a frame.
fn run_of(with_value: bool, frame: Frame) -> u32
    ensures tree { (trees : List Core) → tree_at trees result ≡ spec.run_of with_value (level_of trees frame) }
    ensures below { (count : ℕ) → frame.defers < count → frame.all < count → result < count }
{
    if with_value { frame.all } else { frame.defers }
}

/// Whether a form is that of what is left out.
fn is_absent_form(form: &Form) -> bool
    ensures { (at : ℕ → Core) → spec.is_absent (over_cores at form.now) ≡ result }
{
    match form {
        Form::Absent => true,
        _ => false,
    }
}

impl Writer<'_> {
    /// Whether a line stands for what is left out.
    pub fn is_absent(&self, line: u32) -> bool
        ensures { result ≡ spec.is_absent (tree_at (trees self.now) line) }
    {
        match self.lines.form(line) {
            Some(form) => is_absent_form(form),
            None => false,
        }
    }

    /// What runs as one frame more is left; nothing is written where nothing is put off.
    #[tactic(auto, using(crate::proofs::AddLemmas::are_below_push))]
    fn leave(&self, run: u32, leaves: &mut Vec<u32>) -> Result<(), AllocError>
        requires run { run < length (trees self.now) }
        requires leaves { AreBelow (length (trees self.now)) leaves.old.items }
        ensures trees { OnOk result (map (tree_at (trees self.now)) leaves.new.items ≡ map (tree_at (trees self.now)) leaves.old.items ++ spec.left (tree_at (trees self.now) run) []) }
        ensures below { OnOk result (AreBelow (length (trees self.now)) leaves.new.items) }
    {
        if !self.is_absent(run) {
            leaves.push(run)?;
        }
        Ok(())
    }

    /// Where a `break`, or a `continue` (`on`), with this label or none goes, if anywhere.
    #[tactic(auto, unfolding(crate::specs::Levels::exit_from))]
    pub fn exit_from(
        &self,
        on: bool,
        label: Option<u32>,
        frames: &Frames<'_>,
    ) -> Result<Option<ExitLines>, AllocError>
        requires { FramesBelow (length (trees self.now)) frames.now }
        ensures exit { IfOk result (λ o. exit_by (trees self.now) o ≡ spec.exit_from on label (levels_of (trees self.now) frames.now)) }
        ensures below { IfOk result (ExitBelow (length (trees self.now))) }
    {
        let mut leaves = Vec::new(self.alloc);
        let mut target: u32 = 0;
        let mut rest = frames;
        while let Frames::Within(frame, outer) = rest {
            match step_of(on, label, frame.layer) {
                Step::Nowhere => return Ok(None),
                Step::Here => {
                    self.leave(frame.defers, &mut leaves)?;
                    return Ok(Some(ExitLines {
                        target,
                        leaves: Seq::of(leaves),
                    }));
                }
                Step::Past { count } => {
                    self.leave(frame.defers, &mut leaves)?;
                    let Some(further) = target.checked_add(count) else {
                        return Err(AllocError);
                    };
                    target = further;
                }
            }
            rest = outer;
        }
        Ok(None)
    }

    /// What runs as a function returns, where it does from here; with a value also what an error would
    /// let run.
    #[tactic(auto, unfolding(crate::specs::Levels::return_from))]
    pub fn return_from(
        &self,
        with_value: bool,
        frames: &Frames<'_>,
    ) -> Result<Option<Seq<u32>>, AllocError>
        requires { FramesBelow (length (trees self.now)) frames.now }
        ensures leaves { IfOk result (λ o. leaves_by (trees self.now) o ≡ spec.return_from with_value (levels_of (trees self.now) frames.now)) }
        ensures below { IfOk result (LeavesBelow (length (trees self.now))) }
    {
        let mut leaves = Vec::new(self.alloc);
        let mut rest = frames;
        while let Frames::Within(frame, outer) = rest {
            match return_step(frame.layer) {
                Step::Nowhere => return Ok(None),
                Step::Here => return Ok(Some(Seq::of(leaves))),
                Step::Past { count: _ } => {
                    let run = run_of(with_value, *frame);
                    self.leave(run, &mut leaves)?;
                }
            }
            rest = outer;
        }
        Ok(None)
    }

    /// The line of what runs with this before it, or without.
    fn run_before(&mut self, runs: bool, run: u32, after: u32) -> Result<u32, AllocError>
        requires { after < length (trees self.old) }
        ensures tree { IfOk result (Adds (trees self.old) (trees self.new) (if runs then core.runs (tree_at (trees self.old) run) (tree_at (trees self.old) after) else tree_at (trees self.old) after)) }
        ensures source { self.new.source ≡ self.old.source }
    {
        if runs {
            self.put(Form::Runs {
                first: run,
                then: after,
            })
        } else {
            Ok(after)
        }
    }

    /// A `defer` runs at each exit, an `errdefer` only where the function returns an error.
    pub fn put_off_in<'b>(
        &mut self,
        always: bool,
        run: u32,
        frames: Frames<'b>,
    ) -> Result<Frames<'b>, AllocError>
        requires run { run < length (trees self.old) }
        requires below { FramesBelow (length (trees self.old)) frames }
        ensures levels { IfOk result (AddsFrames (trees self.old) (trees self.new) (spec.put_off_in always (tree_at (trees self.old) run) (levels_of (trees self.old) frames.entry))) }
        ensures source { self.new.source ≡ self.old.source }
    {
        let Frames::Within(frame, outer) = frames else {
            return Ok(frames);
        };
        let defers = self.run_before(always, run, frame.defers)?;
        let all = self.put(Form::Runs {
            first: run,
            then: frame.all,
        })?;
        let next = Frame {
            layer: frame.layer,
            defers,
            all,
        };
        Ok(Frames::Within(next, outer))
    }
}

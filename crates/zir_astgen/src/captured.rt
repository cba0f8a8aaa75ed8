// Which locals the containers of a file capture, by their keywords.
ghost use Rattle.std.specs.Prelude.{◌≡◌, ℕ, ◌++◌, ◌∷◌, [], false, nat_eq, if◌then◌else◌, IfOk, OnOk};
ghost use Rattle.std.specs.BTreeMap.{get};
ghost use Rattle.std.specs.Ordering.{nat_cmp};
ghost use Rattle.zir_astgen.specs.Indexed.{items_of};
ghost use Rattle.zir_astgen.specs.Site.{captures_from};

use std::alloc::{AllocError, Global};
use std::collections::BTreeMap;
use std::marker::Model;
use zir_scope::Capture;

/// What the containers of a file capture, in the order of the first mentions.
#[derive(Debug, Drop)]
pub struct Captured<'a> {
    captures: &'a [Capture],
    /// At each container's keyword the locals that it captures.
    locals: BTreeMap<u32, Vec<u32>>,
}

impl<'a> Model for Captured<'a> {
    ghost use Rattle.std.specs.Prelude.{List};
    ghost use Rattle.zir_scope.specs.declared.captures.Capture.{Capture};
    ghost use Rattle.zir_astgen.specs.Indexed.{AgreeLocals};

    ghost Value = { List Capture };

    ghost view = { λ c. c.captures.now };

    ghost invariant = { λ c. AgreeLocals c.captures.now c.locals };
}

/// Takes the locals of a container out, none where it has none yet.
fn take_locals(alloc: Global, locals: &mut BTreeMap<u32, Vec<u32>>, container: u32) -> Vec<u32>
    ensures taken { result.items ≡ items_of (get nat_cmp locals.old container) }
    ensures others { (q : ℕ) → nat_eq container q ≡ false → get nat_cmp locals.new q ≡ get nat_cmp locals.old q }
{
    match locals.remove(&container) {
        Some(taken) => taken,
        None => Vec::new(alloc),
    }
}

/// One local more.
fn enter(
    alloc: Global,
    locals: &mut BTreeMap<u32, Vec<u32>>,
    capture: Capture,
) -> Result<(), AllocError>
    ensures { OnOk result ((q : ℕ) → items_of (get nat_cmp locals.new q) ≡ items_of (get nat_cmp locals.old q) ++ (if nat_eq capture.container q then capture.local ∷ [] else [])) }
{
    let mut taken = take_locals(alloc, locals, capture.container);
    taken.push(capture.local)?;
    let _ = locals.insert(capture.container, taken)?;
    Ok(())
}

/// At each container's keyword the locals that it captures, in order.
fn locals_of(alloc: Global, captures: &[Capture]) -> Result<BTreeMap<u32, Vec<u32>>, AllocError>
    ensures { IfOk result (λ m. (q : ℕ) → items_of (get nat_cmp m q) ≡ captures_from q captures.now) }
{
    let mut locals = BTreeMap::new(alloc);
    let mut rest = captures;
    while let [capture, more @ ..] = rest {
        enter(alloc, &mut locals, *capture)?;
        rest = more;
    }
    Ok(locals)
}

impl<'a> Captured<'a> {
    /// What the containers of a file capture, in near-linear time.
    pub fn of(alloc: Global, captures: &'a [Capture]) -> Result<Captured<'a>, AllocError>
        ensures { IfOk result (λ c. c ≡ captures.now) }
    {
        let locals = locals_of(alloc, captures)?;
        Ok(Captured { captures, locals })
    }

    /// The locals that a container captures, in logarithmic time.
    pub fn locals(&self, container: u32) -> &[u32]
        ensures { result.now ≡ captures_from container self.now }
    {
        match self.locals.get(&container) {
            Some(locals) => locals.as_slice(),
            None => &[],
        }
    }
}

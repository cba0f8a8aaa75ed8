// What is wrong with a file's names.
ghost use Rattle.std.specs.Prelude.{◌≡◌, ◌++◌, ◌∷◌, [], IfOk, OnOk, slice_get};
ghost use Rattle.zir_scope.specs.Bindings.{latest};
ghost use Rattle.zir_scope.specs.Findings as spec;

use crate::bindings::Bindings;
use crate::event::{Event, Sort, Target};
use std::alloc::{AllocError, Global};
use zig_tree::Token;
use zw_base::{Bytes, DiagCode, Found, Span};

/// Where a token lies.
fn span_of(tokens: &[Token], token: u32) -> Span
    ensures { result ≡ spec.span_of (slice_get tokens.now token) }
{
    match tokens.get(token as usize) {
        Some(token) => token.span,
        None => Span { start: 0, end: 0 },
    }
}

/// A diagnostic at a token.
pub fn found_at(alloc: Global, tokens: &[Token], code: DiagCode, token: u32) -> Found
    ensures { result ≡ spec.found_at tokens.now code token }
{
    Found {
        code,
        span: span_of(tokens, token),
        text: Bytes::of(Vec::new(alloc)),
    }
}

/// The locals that are mentioned, each with the token that does.
#[tactic(auto, unfolding(crate::specs::Findings::uses))]
fn uses(alloc: Global, events: &[Event]) -> Result<Bindings, AllocError>
    ensures { IfOk result (λ b. b.entries ≡ spec.uses events.now) }
{
    let mut used = Bindings::new(alloc, 0)?;
    let mut rest = events;
    while let [event, more @ ..] = rest {
        if let Event::Mentions {
            token,
            target: Target::Local(local),
        } = *event
        {
            used.push(local, token)?;
        }
        rest = more;
    }
    Ok(used)
}

/// The locals that may be changed.
#[tactic(auto, unfolding(crate::specs::Findings::changes))]
fn changes(alloc: Global, events: &[Event]) -> Result<Bindings, AllocError>
    ensures { IfOk result (λ b. b.entries ≡ spec.changes events.now) }
{
    let mut changed = Bindings::new(alloc, 0)?;
    let mut rest = events;
    while let [event, more @ ..] = rest {
        if let Event::Changes { local } = *event {
            changed.push(local, local)?;
        }
        rest = more;
    }
    Ok(changed)
}

/// Diagnostics as they are found, and the locals that are used and changed.
#[derive(Debug, Drop)]
struct Findings {
    used: Bindings,
    changed: Bindings,
    found: Vec<Found>,
}

impl Findings {
    /// A diagnostic at a token.
    fn tell(
        &mut self,
        alloc: Global,
        tokens: &[Token],
        code: DiagCode,
        token: u32,
    ) -> Result<(), AllocError>
        ensures found { OnOk result (self.new.found.items ≡ self.old.found.items ++ spec.found_at tokens.now code token ∷ []) }
        ensures used { OnOk result (self.new.used ≡ self.old.used) }
        ensures changed { OnOk result (self.new.changed ≡ self.old.changed) }
    {
        self.found.push(found_at(alloc, tokens, code, token))?;
        Ok(())
    }

    /// A diagnostic at a token, unless it was seen.
    fn tell_unless(
        &mut self,
        alloc: Global,
        tokens: &[Token],
        code: DiagCode,
        token: u32,
        seen: Option<u32>,
    ) -> Result<(), AllocError>
        ensures found { OnOk result (self.new.found.items ≡ self.old.found.items ++ spec.unless_found tokens.now code token seen) }
        ensures used { OnOk result (self.new.used ≡ self.old.used) }
        ensures changed { OnOk result (self.new.changed ≡ self.old.changed) }
    {
        match seen {
            Some(_) => Ok(()),
            None => self.tell(alloc, tokens, code, token),
        }
    }

    /// What a name owes that is declared.
    fn owe(
        &mut self,
        alloc: Global,
        tokens: &[Token],
        token: u32,
        sort: Sort,
    ) -> Result<(), AllocError>
        ensures found { OnOk result (self.new.found.items ≡ self.old.found.items ++ spec.owed tokens.now self.old.used.entries self.old.changed.entries token sort) }
        ensures used { OnOk result (self.new.used ≡ self.old.used) }
        ensures changed { OnOk result (self.new.changed ≡ self.old.changed) }
    {
        let used = self.used.find(token);
        match sort {
            Sort::Given => Ok(()),
            Sort::Constant => self.tell_unless(alloc, tokens, DiagCode::NeverUsed, token, used),
            Sort::Variable => {
                let changed = self.changed.find(token);
                self.tell_unless(alloc, tokens, DiagCode::NeverUsed, token, used)?;
                self.tell_unless(alloc, tokens, DiagCode::NeverChanged, token, changed)
            }
        }
    }

    /// What is wrong at a token.
    #[tactic(auto, unfolding(crate::specs::Findings::event_found))]
    fn event(&mut self, alloc: Global, tokens: &[Token], event: Event) -> Result<(), AllocError>
        ensures found { OnOk result (self.new.found.items ≡ self.old.found.items ++ spec.event_found tokens.now self.old.used.entries self.old.changed.entries event) }
        ensures used { OnOk result (self.new.used ≡ self.old.used) }
        ensures changed { OnOk result (self.new.changed ≡ self.old.changed) }
    {
        match event {
            Event::Mentions {
                token,
                target: Target::Unknown,
            } => self.tell(alloc, tokens, DiagCode::Undeclared, token),
            Event::Declares { token, sort } => self.owe(alloc, tokens, token, sort),
            Event::Repeats { token } => self.tell(alloc, tokens, DiagCode::NameUsed, token),
            Event::Strays { token } => { self.tell(alloc, tokens, DiagCode::NothingToLeave, token) }
            _ => Ok(()),
        }
    }
}

/// What is wrong, in the order of the text.
#[tactic(auto, unfolding(crate::specs::Findings::found_of, crate::specs::Findings::found_from))]
pub fn found(alloc: Global, tokens: &[Token], events: &[Event]) -> Result<Vec<Found>, AllocError>
    ensures { IfOk result (λ v. v.items ≡ spec.found_of tokens.now events.now) }
{
    let mut findings = Findings {
        used: uses(alloc, events)?,
        changed: changes(alloc, events)?,
        found: Vec::new(alloc),
    };
    let mut rest = events;
    while let [event, more @ ..] = rest {
        findings.event(alloc, tokens, *event)?;
        rest = more;
    }
    let Findings {
        used: _,
        changed: _,
        found,
    } = findings;
    Ok(found)
}

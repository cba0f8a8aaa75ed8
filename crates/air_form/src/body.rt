// The typed body of an instance.
ghost use Rattle.std.specs.Prelude.{◌≡◌, ◌≤◌, length, slice_get};
ghost use Rattle.std.specs.Option.{option_copied};
ghost use Rattle.air_form.specs.Nodes.{AreEarlier, AreBelow};

use crate::node::{AirNode, AirRef};
use std::marker::Model;
use type_form::Index;
use zw_base::Seq;

/// The typed body of an instance of a function. `result`, `slots`, `errors` and `refers` are
/// indices: a type, types, a list of names, and instances.
#[derive(Debug, Drop)]
pub struct Body {
    /// How many of the slots are parameters.
    params: u32,
    /// The result type of the function; where its error set is inferred, with the error names that
    /// the body can return.
    result: Index,
    /// The types of the slots: those of the parameters, and then in the order in which they were made.
    slots: Vec<Index>,
    stmts: Vec<AirRef>,
    /// The error names that the body can return, where the function's error set is inferred, else
    /// none.
    errors: Index,
    /// The instances with a body that it calls, in the order of their first calls.
    refers: Vec<Index>,
    nodes: Vec<AirNode>,
}

impl Model for Body {
    ghost use Rattle.air_form.specs.Nodes.{BodyState, IsWhole};

    ghost Value = { BodyState };

    ghost view = { λ b. record { params = b.params; result = b.result; slots = b.slots.items; stmts = b.stmts.items; errors = b.errors; refers = b.refers.items; nodes = b.nodes.items } };

    ghost invariant = { λ b. IsWhole (record { params = b.params; result = b.result; slots = b.slots.items; stmts = b.stmts.items; errors = b.errors; refers = b.refers.items; nodes = b.nodes.items }) };
}

impl Body {
    /// How many of the slots are parameters.
    pub fn params(&self) -> u32
        ensures value { result ≡ self.now.params }
        ensures slots { self.now.params ≤ length self.now.slots }
    {
        self.params
    }

    /// The body with these nodes.
    pub(crate) fn of(
        params: u32,
        result_ty: Index,
        slots: Vec<Index>,
        stmts: Vec<AirRef>,
        errors: Index,
        refers: Vec<Index>,
        nodes: Vec<AirNode>,
    ) -> Body
        requires earlier { AreEarlier nodes.items }
        requires below { AreBelow (length nodes.items) stmts.items }
        requires room { params ≤ length slots.items }
        ensures { result ≡ record { params = params; result = result_ty; slots = slots.items; stmts = stmts.items; errors = errors; refers = refers.items; nodes = nodes.items } }
    {
        Body {
            params,
            result: result_ty,
            slots,
            stmts,
            errors,
            refers,
            nodes,
        }
    }

    /// The result type of the function.
    pub fn result_ty(&self) -> Index
        ensures { result ≡ self.now.result }
    {
        self.result
    }

    /// The types of the slots.
    pub fn slots(&self) -> &[Index]
        ensures { result.now ≡ self.now.slots }
    {
        self.slots.as_slice()
    }

    /// The statements.
    pub fn stmts(&self) -> &[AirRef]
        ensures value { result.now ≡ self.now.stmts }
        ensures below { AreBelow (length self.now.nodes) self.now.stmts }
    {
        self.stmts.as_slice()
    }

    /// The error names that the body can return, as one index of a list of names.
    pub fn errors(&self) -> Index
        ensures { result ≡ self.now.errors }
    {
        self.errors
    }

    /// The instances with a body that it calls.
    pub fn refers(&self) -> &[Index]
        ensures { result.now ≡ self.now.refers }
    {
        self.refers.as_slice()
    }

    /// A node by its number, if there is such a node; it refers to earlier ones.
    pub fn node(&self, number: AirRef) -> Option<&AirNode>
        ensures node { option_copied result ≡ slice_get self.now.nodes number.0 }
        ensures earlier { AreEarlier self.now.nodes }
    {
        self.nodes.get(number.0 as usize)
    }
}

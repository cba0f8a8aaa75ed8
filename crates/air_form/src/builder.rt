// A typed body as it is made: nodes are only put behind others.
ghost use Rattle.std.specs.Prelude.{◌≡◌, ◌≢◌, ◌+◌, ◌<◌, ◌≤◌, [], ◌∷◌, ◌++◌, length, take, drop, IfOk, OnErr, OnOk, slice_get};
ghost use Rattle.std.specs.Option.{option_copied};
ghost use Rattle.air_form.specs.Nodes.{refs_of, AreEarlier, AreBelow};

use crate::body::Body;
use crate::node::{AirNode, AirRef};
use std::alloc::{AllocError, Global};
use std::marker::Model;
use type_form::Index;
use zw_base::Seq;

/// A typed body as it is made. What a node stands for stays whatever is put behind it.
#[derive(Debug, Drop)]
pub struct AirBuilder {
    nodes: Vec<AirNode>,
    /// The types of the slots, parameters first.
    slots: Vec<Index>,
    /// The statements of the lists that are open, the outer lists first.
    statements: Vec<AirRef>,
    /// How many labels there are.
    labels: u32,
}

impl Model for AirBuilder {
    ghost use Rattle.air_form.specs.Nodes.{AirState, IsBuilt};

    ghost Value = { AirState };

    ghost view = { λ b. record { nodes = b.nodes.items; slots = b.slots.items; statements = b.statements.items; labels = b.labels } };

    ghost invariant = { λ b. IsBuilt (record { nodes = b.nodes.items; slots = b.slots.items; statements = b.statements.items; labels = b.labels }) };
}

impl AirBuilder {
    /// Nothing yet. Takes no memory.
    pub fn new(alloc: Global) -> AirBuilder
        ensures { result ≡ record { nodes = []; slots = []; statements = []; labels = 0 } }
    {
        AirBuilder {
            nodes: Vec::new(alloc),
            slots: Vec::new(alloc),
            statements: Vec::new(alloc),
            labels: 0,
        }
    }

    /// Puts a node behind the others, and answers its number.
    pub fn push(&mut self, node: AirNode) -> Result<AirRef, AllocError>
        requires { AreBelow (length self.old.nodes) (refs_of node) }
        ensures number { IfOk result (λ r. r.0 ≡ length self.old.nodes) }
        ensures nodes { OnOk result (self.new ≡ record self.old { nodes = self.old.nodes ++ node ∷ [] }) }
        ensures unchanged { OnErr result (self.new ≡ self.old) }
    {
        let number = self.nodes.len();
        self.nodes.push(node)?;
        Ok(AirRef(number as u64))
    }

    /// How many nodes there are.
    pub fn len(&self) -> u64
        ensures { result ≡ length self.now.nodes }
    {
        self.nodes.len() as u64
    }

    /// A node by its number, if there is such a node; it refers to earlier ones.
    pub fn node(&self, number: AirRef) -> Option<&AirNode>
        ensures node { option_copied result ≡ slice_get self.now.nodes number.0 }
        ensures earlier { AreEarlier self.now.nodes }
    {
        self.nodes.get(number.0 as usize)
    }

    /// A slot for values of a type, by its number. Want of memory also comes at 2^32 - 1 slots.
    pub fn add_slot(&mut self, ty: Index) -> Result<u32, AllocError>
        ensures number { IfOk result (λ n. n ≡ length self.old.slots) }
        ensures slots { OnOk result (self.new ≡ record self.old { slots = self.old.slots ++ ty ∷ [] }) }
        ensures unchanged { OnErr result (self.new ≡ self.old) }
    {
        let number = self.slots.len();
        if number >= u32::MAX as usize {
            return Err(AllocError);
        }
        self.slots.push(ty)?;
        Ok(number as u32)
    }

    /// The types of the slots.
    pub fn slots(&self) -> &[Index]
        ensures { result.now ≡ self.now.slots }
    {
        self.slots.as_slice()
    }

    /// A label that no block or loop has. Want of memory comes at 2^32 - 1 labels.
    pub fn add_label(&mut self) -> Result<u32, AllocError>
        ensures number { IfOk result (λ n. n ≡ self.old.labels) }
        ensures labels { OnOk result (self.new ≡ record self.old { labels = self.old.labels + 1 }) }
        ensures unchanged { OnErr result (self.new ≡ self.old) }
    {
        if self.labels == u32::MAX {
            return Err(AllocError);
        }
        let label = self.labels;
        self.labels += 1;
        Ok(label)
    }

    /// Puts a statement at the end of the innermost list that is open.
    pub fn add_statement(&mut self, statement: AirRef) -> Result<(), AllocError>
        requires { statement.0 < length self.old.nodes }
        ensures statements { OnOk result (self.new ≡ record self.old { statements = self.old.statements ++ statement ∷ [] }) }
        ensures unchanged { OnErr result (self.new ≡ self.old) }
    {
        self.statements.push(statement)?;
        Ok(())
    }

    /// How many statements the lists have that are open. A list is opened by this number.
    pub fn open_list(&self) -> usize
        ensures { result ≡ length self.now.statements }
    {
        self.statements.len()
    }

    /// Closes the innermost list, which was opened by this number, and answers its statements.
    pub fn close_list(&mut self, start: usize) -> Result<Seq<AirRef>, AllocError>
        requires { start ≤ length self.old.statements }
        ensures list { IfOk result (λ list. list ≡ drop start self.old.statements) }
        ensures below { IfOk result (λ list. AreBelow (length self.old.nodes) list) }
        ensures statements { OnOk result (self.new ≡ record self.old { statements = take start self.old.statements }) }
        ensures unchanged { OnErr result (self.new ≡ self.old) }
    {
        let list = self.statements.split_off(start)?;
        Ok(Seq::of(list))
    }

    /// The body of what was made: the first slots are parameters.
    pub fn finish(self, params: u32, result_ty: Index, errors: Index, refers: Vec<Index>) -> Body
        requires { params ≤ length self.slots }
        ensures { result ≡ record { params = params; result = result_ty; slots = self.slots; stmts = self.statements; errors = errors; refers = refers.items; nodes = self.nodes } }
    {
        let AirBuilder {
            nodes,
            slots,
            statements,
            labels: _,
        } = self;
        Body::of(params, result_ty, slots, statements, errors, refers, nodes)
    }
}

// Values by numbers, of which a copy costs nothing and a change costs what it changes.
ghost use Rattle.std.specs.Prelude.{◌≡◌, ℕ, ◌==◌, if◌then◌else◌, Some, None, IfOk, OnOk, OnErr};
ghost use Rattle.std.specs.Option.{option_copied};
ghost use Rattle.trace_log.specs.Tables.{forked, link_get, node_get, PutsAt};

use crate::shared::Shared;
use std::alloc::{AllocError, Global};
use std::sync::Arc;

type Link<T> = Option<Arc<Node<T>, Global>>;

/// A tree of values by numbers. A number is read from its lowest bit on, so that a tree is as deep
/// as the bits that tell its numbers apart, and no deeper than 64.
#[derive(Drop)]
pub enum Node<T> {
    /// One value.
    One {
        own: u64,
        value: Shared<T>,
    },
    /// The value at 0, those at odd numbers, 2 n + 1 by n, and those at even ones, 2 n + 2 by n.
    Fork {
        here: Option<Shared<T>>,
        odd: Link<T>,
        even: Link<T>,
    },
}

/// What stands at a number.
fn get_in<T>(node: &Node<T>, number: u64) -> Option<&Shared<T>>
    ensures { option_copied result ≡ node_get node.now number }
{
    match node {
        Node::One { own, value } => { if number == *own { Some(value) } else { None } }
        Node::Fork { here, odd, even } => {
            if number == 0 {
                here.as_ref()
            } else if number % 2 == 1 {
                match odd {
                    Some(node) => get_in(&**node, number / 2),
                    None => None,
                }
            } else {
                match even {
                    Some(node) => get_in(&**node, number / 2 - 1),
                    None => None,
                }
            }
        }
    }
}

/// The same tree once more.
fn share_link<T>(link: &Link<T>) -> Result<Link<T>, AllocError>
    ensures { IfOk result (λ l. (n : ℕ) → link_get l n ≡ link_get link.now n) }
{
    match link {
        Some(node) => Ok(Some(Arc::try_clone(node)?)),
        None => Ok(None),
    }
}

/// The same value once more.
fn share_value<T>(value: &Option<Shared<T>>) -> Result<Option<Shared<T>>, AllocError>
    ensures { IfOk result (λ v. v ≡ value.now) }
{
    match value {
        Some(value) => Ok(Some(value.share()?)),
        None => Ok(None),
    }
}

/// The tree of a link with a value at a number.
#[cycle(put)]
fn put_link<T: Drop>(
    alloc: Global,
    link: &Link<T>,
    number: u64,
    value: Shared<T>,
) -> Result<Node<T>, AllocError>
    ensures { IfOk result (λ n. PutsAt (link_get link.now) (node_get n) number (Some value)) }
{
    match link {
        Some(node) => put_node(alloc, &**node, number, value),
        None => Ok(Node::One { own: number, value }),
    }
}

/// A tree with a value at a number.
#[cycle(put)]
fn put_node<T: Drop>(
    alloc: Global,
    node: &Node<T>,
    number: u64,
    value: Shared<T>,
) -> Result<Node<T>, AllocError>
    ensures { IfOk result (λ n. PutsAt (node_get node.now) (node_get n) number (Some value)) }
{
    match node {
        Node::One { own, value: kept } => {
            if number == *own {
                Ok(Node::One { own: number, value })
            } else {
                let kept = kept.share()?;
                put_beside(alloc, *own, kept, number, value)
            }
        }
        Node::Fork { here, odd, even } => put_fork(alloc, here, odd, even, number, value),
    }
}

/// A fork with a value at a number.
#[cycle(put)]
fn put_fork<T: Drop>(
    alloc: Global,
    here: &Option<Shared<T>>,
    odd: &Link<T>,
    even: &Link<T>,
    number: u64,
    value: Shared<T>,
) -> Result<Node<T>, AllocError>
    ensures { IfOk result (λ n. PutsAt (forked here.now (link_get odd.now) (link_get even.now)) (node_get n) number (Some value)) }
{
    if number == 0 {
        let odd = share_link(odd)?;
        let even = share_link(even)?;
        Ok(Node::Fork {
            here: Some(value),
            odd,
            even,
        })
    } else if number % 2 == 1 {
        let node = put_link(alloc, odd, number / 2, value)?;
        let odd = Some(Arc::new(alloc, node)?);
        let here = share_value(here)?;
        let even = share_link(even)?;
        Ok(Node::Fork { here, odd, even })
    } else {
        let node = put_link(alloc, even, number / 2 - 1, value)?;
        let even = Some(Arc::new(alloc, node)?);
        let here = share_value(here)?;
        let odd = share_link(odd)?;
        Ok(Node::Fork { here, odd, even })
    }
}

/// Two values at two numbers.
#[cycle(put)]
fn put_beside<T: Drop>(
    alloc: Global,
    own: u64,
    kept: Shared<T>,
    number: u64,
    value: Shared<T>,
) -> Result<Node<T>, AllocError>
    ensures { IfOk result (λ n. (m : ℕ) → node_get n m ≡ (if m == number then Some value else (if m == own then Some kept else None))) }
{
    if own == 0 {
        put_fork(alloc, &Some(kept), &None, &None, number, value)
    } else if own % 2 == 1 {
        let node = Node::One {
            own: own / 2,
            value: kept,
        };
        let odd = Some(Arc::new(alloc, node)?);
        put_fork(alloc, &None, &odd, &None, number, value)
    } else {
        let node = Node::One {
            own: own / 2 - 1,
            value: kept,
        };
        let even = Some(Arc::new(alloc, node)?);
        put_fork(alloc, &None, &None, &even, number, value)
    }
}

/// Values by numbers. Contracts ask for what stands at a number.
#[derive(Drop)]
pub struct Table<T> {
    root: Link<T>,
}

impl<T> Table<T> {
    ghost use Rattle.trace_log.specs.TableStates.{table_get};

    /// No values. Takes no memory.
    #[tactic(auto, unfolding(crate::specs::TableStates::table_get))]
    pub fn new() -> Table<T>
        ensures { (n : ℕ) → table_get result n ≡ None }
    {
        Table { root: None }
    }

    /// What stands at a number. It takes as many steps as there are bits that tell the numbers
    /// apart.
    #[tactic(auto, unfolding(crate::specs::TableStates::table_get))]
    pub fn get(&self, number: u64) -> Option<&Shared<T>>
        ensures { option_copied result ≡ table_get self.now number }
    {
        match &self.root {
            Some(node) => get_in(&**node, number),
            None => None,
        }
    }

    /// The same table once more, which a change of this one leaves as it is.
    #[tactic(auto, unfolding(crate::specs::TableStates::table_get))]
    pub fn share(&self) -> Result<Table<T>, AllocError>
        ensures { IfOk result (λ t. (n : ℕ) → table_get t n ≡ table_get self.now n) }
    {
        Ok(Table {
            root: share_link(&self.root)?,
        })
    }
}

impl<T: Drop> Table<T> {
    ghost use Rattle.trace_log.specs.Tables.{PutsAt};
    ghost use Rattle.trace_log.specs.TableStates.{table_get};

    /// Puts a value at a number. An Err leaves the table as it was.
    #[tactic(auto, unfolding(crate::specs::TableStates::table_get))]
    pub fn put(&mut self, alloc: Global, number: u64, value: Shared<T>) -> Result<(), AllocError>
        ensures ok { OnOk result (PutsAt (table_get self.old) (table_get self.new) number (Some value)) }
        ensures err { OnErr result (self.new ≡ self.old) }
    {
        let node = put_link(alloc, &self.root, number, value)?;
        self.root = Some(Arc::new(alloc, node)?);
        Ok(())
    }
}

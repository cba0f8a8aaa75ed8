// A list that grows and shrinks at its front.
ghost use Rattle.std.specs.Prelude.{◌≡◌, ◌∷◌, ◌++◌, [], length, if◌then◌else◌, is_ok, IfOk, OnOk, reverse};
ghost use Rattle.zig_parse.specs.Stack.{Popped, Topped, rest, with_first};

use std::alloc::{AllocError, Global};
use std::marker::Model;

/// A list whose front is quick to reach.
#[derive(Debug, Drop)]
pub struct Stack<T> {
    inner: Vec<T>,
}

impl<T> Model for Stack<T> {
    ghost use Rattle.std.specs.Prelude.{List, reverse};
    ghost use Rattle.std.specs.Coded.{coded_list};

    ghost Value = { List T };

    ghost coded = { coded_list T.code };

    ghost view = { λ s. reverse s.inner.items };
}

impl<T> Stack<T> {
    pub fn new(alloc: Global) -> Stack<T>
        ensures { result ≡ [] }
    {
        Stack {
            inner: Vec::new(alloc),
        }
    }

    /// A list whose front is the front of the `Vec`.
    pub fn of(v: Vec<T>) -> Stack<T>
        ensures { result ≡ v.items }
    {
        let mut inner = v;
        inner.reverse();
        Stack { inner }
    }

    /// The values from the last to the first.
    pub fn as_slice(&self) -> &[T]
        ensures { result.now ≡ reverse self.now }
    {
        self.inner.as_slice()
    }

    pub fn len(&self) -> usize
        ensures { result ≡ length self.now }
    {
        self.inner.len()
    }

    pub fn pop(&mut self) -> Option<T>
        ensures { Popped self.old result self.new }
    {
        self.inner.pop()
    }
}

impl<T: Drop> Stack<T> {
    pub fn push(&mut self, x: T) -> Result<(), AllocError>
        ensures { self.new ≡ (if is_ok result then x ∷ self.old else self.old) }
    {
        self.inner.push(x)?;
        Ok(())
    }
}

impl<T: Copy> Stack<T> {
    pub fn top(&self) -> Option<T>
        ensures { Topped self.now result }
    {
        self.inner.last().copied()
    }

    /// The values below the front, from the last on.
    #[tactic(auto, using(crate::proofs::Front::below_last))]
    pub fn below(&self) -> &[T]
        ensures { result.now ≡ reverse (rest self.now) }
    {
        let inner = self.inner.as_slice();
        &inner[..inner.len().saturating_sub(1)]
    }

    #[tactic(auto, using(crate::proofs::Front::set_last))]
    pub fn set_top(&mut self, x: T)
        ensures { self.new ≡ with_first x self.old }
    {
        let n = self.inner.len();
        if n > 0 {
            self.inner[n - 1] = x;
        }
    }

    /// Puts the values of another list in front, in its order.
    pub fn put_front(&mut self, other: &Stack<T>) -> Result<(), AllocError>
        ensures { OnOk result (self.new ≡ other.now ++ self.old) }
    {
        self.inner.extend_from_slice(other.inner.as_slice())
    }

    pub fn copy(&self, alloc: Global) -> Result<Stack<T>, AllocError>
        ensures { IfOk result (λ s. s ≡ self.now) }
    {
        Ok(Stack {
            inner: Vec::from_slice(alloc, self.inner.as_slice())?,
        })
    }
}

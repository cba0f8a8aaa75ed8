// Which lines of two files stand for the same tree.
ghost use Rattle.std.specs.Prelude.{◌≡◌, ◌++◌, ◌+◌, List, ℕ, map, IfOk, OnOk, unwrap_or, if◌then◌else◌, None, Some};
ghost use Rattle.std.specs.Option.{option_or};
ghost use Rattle.std.specs.Str.{bytes_eq};
ghost use Rattle.zir_form.specs.Core.{Core};
ghost use Rattle.zir_same.specs.Labels.{key};
ghost use Rattle.zir_form.specs.Lines.{trees_of};
ghost use Rattle.zir_form.specs.Places.{place_in};
ghost use Rattle.zir_same.specs.Same as spec;
ghost use Rattle.zir_same.specs.Same.{IsKnown, Numbered, TellsTrees, is_missing, number_at};

use crate::label::{put_children, put_label};
use std::alloc::{AllocError, Global};
use std::collections::BTreeMap;
use std::marker::Model;
use zir_form::{Form, Lines, PartRef};

/// The trees that were met: the number of each by its key, from 1, and the next number.
#[derive(Drop)]
struct KnownTrees {
    numbers: BTreeMap<Vec<u64>, u64>,
    next: u64,
}

/// The number of a key, where it has one.
#[tactic(auto, unfolding(zir_form::specs::Places::place_in))]
fn place_of(numbers: &BTreeMap<Vec<u64>, u64>, key: &[u64]) -> Option<u64>
    ensures { result ≡ place_in numbers.now key.now }
{
    numbers.get(key).copied()
}

/// The number of a line: 0 where no such line is numbered yet, as for a line without a form.
#[tactic(auto, unfolding(crate::specs::Same::number_at))]
fn number_at(numbers: &[u64], line: u32) -> u64
    ensures { result ≡ number_at numbers.now line }
{
    match numbers.get(line as usize) {
        Some(number) => *number,
        None => 0,
    }
}

/// The numbers of lines behind others.
fn put_numbers(numbers: &[u64], lines: &[u32], words: &mut Vec<u64>) -> Result<(), AllocError>
    ensures { OnOk result (words.new.items ≡ words.old.items ++ map (number_at numbers.now) lines.now) }
{
    let mut rest = lines;
    while let [line, more @ ..] = rest {
        words.push(number_at(numbers, *line))?;
        rest = more;
    }
    Ok(())
}

/// The key of a form: its label behind the label's length, and the numbers of the lines below it.
#[tactic(auto, unfolding(crate::specs::Labels::key))]
fn key_of(alloc: Global, form: &Form, numbers: &[u64]) -> Result<Vec<u64>, AllocError>
    ensures { IfOk result (λ words. words.items ≡ key (number_at numbers.now) form.now) }
{
    let mut label = Vec::new(alloc);
    put_label(form, &mut label)?;
    let mut children = Vec::new(alloc);
    put_children(form, &mut children)?;
    let mut words = Vec::new(alloc);
    words.push(label.len() as u64)?;
    words.extend_from_slice(label.as_slice())?;
    put_numbers(numbers, children.as_slice(), &mut words)?;
    Ok(words)
}

/// Whether a form is none.
fn is_missing(form: &Form) -> bool
    ensures { result ≡ is_missing form.now }
{
    matches!(form, Form::Missing)
}

impl KnownTrees {
    /// The number of the tree with a key, which gets the next number where it has none yet.
    fn number_of(&mut self, key: Vec<u64>) -> Result<u64, AllocError>
        ensures number { IfOk result (λ n. n ≡ unwrap_or (place_in self.old.numbers key.items) self.old.next) }
        ensures numbers { OnOk result ((w : List ℕ) → place_in self.new.numbers w ≡ option_or (place_in self.old.numbers w) (if bytes_eq key.items w then Some self.old.next else None)) }
        ensures next { OnOk result (self.new.next ≡ spec.next_number (place_in self.old.numbers key.items) self.old.next) }
    {
        match place_of(&self.numbers, key.as_slice()) {
            Some(number) => Ok(number),
            None => {
                let number = self.next;
                if number == u64::MAX {
                    return Err(AllocError);
                }
                let _ = self.numbers.insert(key, number)?;
                self.next = number + 1;
                Ok(number)
            }
        }
    }

    /// The number of the tree of a form, by the numbers of the lines before it: 0 of none, else that of
    /// its key.
    fn number(&mut self, alloc: Global, form: &Form, numbers: &[u64]) -> Result<u64, AllocError>
        ensures { IfOk result (λ n. (seen trees : List Core) → IsKnown seen self.old → spec.Stand seen trees numbers.now → spec.NumberedForm seen self.new trees form.now n) }
    {
        if is_missing(form) {
            return Ok(0);
        }
        let key = key_of(alloc, form, numbers)?;
        let number = self.number_of(key)?;
        Ok(number)
    }

    /// The numbers of all lines of a file.
    fn numbers(&mut self, alloc: Global, lines: &Lines) -> Result<Vec<u64>, AllocError>
        ensures { IfOk result (λ numbers. (seen : List Core) → IsKnown seen self.old → Numbered seen self.new (trees_of lines.now) numbers.items) }
    {
        let mut numbers = Vec::new(alloc);
        let mut line: u32 = 0;
        while let Some(form) = lines.form(line) {
            let number = self.number(alloc, form, numbers.as_slice())?;
            numbers.push(number)?;
            if line == u32::MAX {
                return Err(AllocError);
            }
            line += 1;
        }
        Ok(numbers)
    }
}

/// Which lines of two files stand for the same tree: a number for each line, which two lines share exactly
/// where they do.
#[derive(Debug, Drop)]
pub struct SameTrees {
    left: Vec<u64>,
    right: Vec<u64>,
}

impl Model for SameTrees {
    ghost use Rattle.zir_same.specs.Same.{NumberedLines};

    ghost Value = { NumberedLines };

    ghost view = { λ s. record { left = s.left.items; right = s.right.items } };
}

impl SameTrees {
    /// Numbers the lines of two files, each line once: near-linear in the lines, however often a line
    /// stands below others.
    pub fn of(alloc: Global, left: &Lines, right: &Lines) -> Result<SameTrees, AllocError>
        ensures { IfOk result (λ s. TellsTrees left.now right.now s) }
    {
        let mut known = KnownTrees {
            numbers: BTreeMap::new(alloc),
            next: 1,
        };
        Ok(SameTrees {
            left: known.numbers(alloc, left)?,
            right: known.numbers(alloc, right)?,
        })
    }

    /// Whether a line of the left file and one of the right stand for the same tree; one that isn't there
    /// stands for no form.
    pub fn lines(&self, left: u32, right: u32) -> bool
        ensures { result ≡ spec.same_lines self.now left right }
    {
        number_at(self.left.as_slice(), left) == number_at(self.right.as_slice(), right)
    }

    /// Whether a part of the left file and one of the right have the same tree, or both files lack it.
    pub fn parts(&self, left: Option<PartRef>, right: Option<PartRef>) -> bool
        ensures { result ≡ spec.same_parts self.now left right }
    {
        match (left, right) {
            (Some(left), Some(right)) => self.lines(left.line, right.line),
            (None, None) => true,
            _ => false,
        }
    }
}

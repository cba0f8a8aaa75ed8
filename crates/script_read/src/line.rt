// What a command's line asks for: the name, how many words follow it, and what they say.
ghost use Rattle.std.specs.Prelude.{◌≡◌, ◌≤◌, ◌==◌, ◌+◌, ◌*◌, ◌-◌, ◌<◌, ◌^◌, IfOk, IsTrue, length, map, None, fold};
ghost use Rattle.std.specs.Prelude.{true};
ghost use Rattle.std.specs.List.{list_all};
ghost use Rattle.std.specs.Char.{is_ascii_digit};
ghost use Rattle.script_read.specs.Answers.{Gives, shown};
ghost use Rattle.script_read.specs.Words.{words, verb_of, no_word, one_word, two_words, path_in, number_of, is_length, length_in, request_with, request_of};

use crate::command::{Refusal, Request};
use std::alloc::{AllocError, Global};
use zw_base::{FilePath, PathFault, Reason};

/// The commands by their names.
#[derive(Clone, Copy, Debug, PartialEq, Eq)]
pub enum Verb {
    File,
    Drop,
    Update,
}

/// What a line asks for. The causes of refusal in their order: the first word is no command's name,
/// the words after it are too many, too few or empty, the path is none, the length is none.
pub fn request_of(alloc: Global, line: &[u8]) -> Result<Request, Refusal>
    ensures { Gives result (request_of line.now) }
{
    let words = words_of(alloc, line)?;
    match words.as_slice() {
        [] => Err(Refusal::Bad(Reason::UnknownCommand)),
        [name, args @ ..] => request_with(alloc, verb_of(name), args),
    }
}

/// The words of a line, parted by each space.
fn words_of(alloc: Global, line: &[u8]) -> Result<Vec<&[u8]>, AllocError>
    ensures { IfOk result (λ v. map (λ word. word.now) v.items ≡ words line.now) }
{
    line.split(|b| *b == b' ').collect(alloc)
}

fn verb_of(name: &[u8]) -> Option<Verb>
    ensures { result ≡ verb_of name.now }
{
    if name == b"file".as_slice() {
        Some(Verb::File)
    } else if name == b"drop".as_slice() {
        Some(Verb::Drop)
    } else if name == b"update".as_slice() {
        Some(Verb::Update)
    } else {
        None
    }
}

fn request_with(alloc: Global, verb: Option<Verb>, args: &[&[u8]]) -> Result<Request, Refusal>
    ensures { Gives result (request_with verb (map (λ word. word.now) args.now)) }
{
    match verb {
        None => Err(Refusal::Bad(Reason::UnknownCommand)),
        Some(Verb::File) => {
            let (path, len) = two_words(args)?;
            let path = path_in(alloc, path)?;
            let len = length_in(len)?;
            Ok(Request::File { path, len })
        }
        Some(Verb::Drop) => {
            let word = one_word(args)?;
            let path = path_in(alloc, word)?;
            Ok(Request::Drop { path })
        }
        Some(Verb::Update) => {
            no_word(args)?;
            Ok(Request::Update)
        }
    }
}

fn no_word(args: &[&[u8]]) -> Result<(), Refusal>
    ensures { result ≡ no_word (map (λ word. word.now) args.now) }
{
    match args {
        [] => Ok(()),
        _ => Err(Refusal::Bad(Reason::BadWords)),
    }
}

fn one_word<'a>(args: &[&'a [u8]]) -> Result<&'a [u8], Refusal>
    ensures { shown (λ word. word.now) result ≡ one_word (map (λ word. word.now) args.now) }
{
    match args {
        [word] if !word.is_empty() => Ok(word),
        _ => Err(Refusal::Bad(Reason::BadWords)),
    }
}

fn two_words<'a>(args: &[&'a [u8]]) -> Result<(&'a [u8], &'a [u8]), Refusal>
    ensures { shown (λ both. (both.0.now, both.1.now)) result ≡ two_words (map (λ word. word.now) args.now) }
{
    match args {
        [first, second] if !first.is_empty() && !second.is_empty() => Ok((first, second)),
        _ => Err(Refusal::Bad(Reason::BadWords)),
    }
}

/// The path that a word says.
fn path_in(alloc: Global, word: &[u8]) -> Result<FilePath, Refusal>
    ensures { Gives result (path_in word.now) }
{
    let Ok(text) = str::from_utf8(word) else {
        return Err(Refusal::Bad(Reason::BadPath));
    };
    match FilePath::of(alloc, text) {
        Ok(path) => Ok(path),
        Err(PathFault::OutOfMemory) => Err(Refusal::OutOfMemory),
        Err(_) => Err(Refusal::Bad(Reason::BadPath)),
    }
}

/// The number that a word says, of 1 to 10 digits without a leading zero.
fn length_in(word: &[u8]) -> Result<u64, Refusal>
    ensures { result ≡ length_in word.now }
{
    if is_length(word) {
        Ok(number_of(word))
    } else {
        Err(Refusal::Bad(Reason::BadLength))
    }
}

fn is_length(word: &[u8]) -> bool
    ensures { result ≡ is_length word.now }
{
    if word.is_empty() || word.len() > 10 || !are_digits(word) {
        return false;
    }
    word[0] > b'0' || word.len() == 1
}

fn are_digits(word: &[u8]) -> bool
    ensures { result ≡ list_all is_ascii_digit word.now }
{
    word.iter().all(|b| b.is_ascii_digit())
}

/// The number that at most ten digits write.
fn number_of(digits: &[u8]) -> u64
    requires few { length digits.now ≤ 10 }
    requires digits { list_all is_ascii_digit digits.now ≡ true }
    ensures { result ≡ number_of digits.now }
{
    let mut n: u64 = 0;
    for digit in digits {
        n = 10 * n + u64::from(*digit - b'0');
    }
    n
}

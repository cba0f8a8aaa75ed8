//! How finds in a shared pool scale with threads: `pool_finds KEYS FINDS` interns so many keys,
//! finds that many of them in each of 1, 2 and 4 threads, and prints what that took. Without words
//! the numbers are small and no time is printed.
//!
//! The model: none. The times are of one run; no proof speaks of them.
//! The crate stands on `pool_shard` and `pool_seat`.
#![tactic(auto)]

mod round;
mod share;

use round::Round;
use share::rounds_of;
use std::rt::Env;
use std::{env, io};

/// How many keys there are, how many are found in each thread, and whether times are printed.
#[derive(Drop)]
struct Words {
    keys: u64,
    finds: u64,
    timed: bool,
}

fn main(rt: HostRuntime) -> io::Result<()> {
    let words = words_of(&rt)?;
    let rounds = rounds_of(&rt, rt.alloc(), words.keys, words.finds)?;
    for round in rounds {
        report(&rt, &round, words.timed)?;
    }
    Ok(())
}

/// Prints what a round found, and what it took.
fn report<R: Print>(rt: &R, round: &Round, is_timed: bool) -> io::Result<()> {
    let threads = round.threads;
    let found = round.found;
    if !is_timed {
        return println!(rt; "threads {threads}: {found} found");
    }
    let wall = round.wall.as_millis();
    let busy = round.busy.as_millis();
    println!(rt; "threads {threads}: {found} found in {wall} ms, {busy} ms of all processors")
}

/// The numbers of the command line, or small ones.
fn words_of<R: Env + AllocGlobal>(rt: &R) -> io::Result<Words> {
    let mut words = env::args(rt)?.skip(1);
    let keys = number(words.next());
    let finds = number(words.next());
    match (keys, finds) {
        (Some(keys), Some(finds)) => Ok(Words {
            keys,
            finds,
            timed: true,
        }),
        _ => Ok(Words {
            keys: 1000,
            finds: 1000,
            timed: false,
        }),
    }
}

/// The number that a word says.
fn number(word: Option<String>) -> Option<u64> {
    match word {
        Some(word) => word.parse::<u64>().ok(),
        None => None,
    }
}

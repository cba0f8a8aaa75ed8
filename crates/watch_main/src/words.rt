// The words of the command line.
ghost use Rattle.std.specs.Prelude.{◌≡◌, map, IfOk, IfErr};
ghost use Rattle.std.specs.String.{string_bytes};
ghost use Rattle.watch_main.specs.Words.{AreInRange, once_over, once_path, path_named, words_of};
ghost use Rattle.watch_main.specs.Steps.{NamesPath, Serves};

use std::alloc::Global;
use zw_base::{FilePath, PathFault, Seq, Status};

/// The number of workers, and of the intern pool's shards, where the words say none.
const JOBS: u32 = 4;

const SHARDS: u32 = 16;

/// What the words ask for.
#[derive(Debug, Drop)]
pub struct Words {
    /// One update, and no script.
    pub once: bool,
    /// The file from which a compilation goes on; it need not be among those that are read.
    pub root: FilePath,
    /// The files that are read first, in this order.
    pub paths: Seq<FilePath>,
    pub jobs: u32,
    pub shards: u32,
    /// How many files a load run makes, where this is one.
    pub load: Option<u32>,
}

/// What the words ask for, where they are served.
pub fn words_of(alloc: Global, words: &[String]) -> Result<Words, Status>
    ensures served { Serves result (words_of (map string_bytes words.now)) }
    ensures range { IfOk result AreInRange }
{
    let path = once_path(alloc, words)?;
    once_over(alloc, path)
}

/// The path of the words that are served so far, `--once --root PATH PATH` with the same path twice.
fn once_path(alloc: Global, words: &[String]) -> Result<FilePath, Status>
    ensures { NamesPath result (once_path (map string_bytes words.now)) }
{
    let [once, root, first, second] = words else {
        return Err(Status::Usage);
    };
    if once.as_str() != "--once" || root.as_str() != "--root" || first.as_str() != second.as_str() {
        return Err(Status::Usage);
    }
    path_of(alloc, first.as_str())
}

/// One compilation of one file, which is its root.
fn once_over(alloc: Global, path: FilePath) -> Result<Words, Status>
    ensures words { IfOk result (λ words. words ≡ once_over path) }
    ensures fault { IfErr result (λ status. status ≡ Status.Memory) }
{
    let Ok(root) = path.clone() else {
        return Err(Status::Memory);
    };
    let Ok(paths) = vec![in alloc; path] else {
        return Err(Status::Memory);
    };
    Ok(Words {
        once: true,
        root,
        paths: Seq::of(paths),
        jobs: JOBS,
        shards: SHARDS,
        load: None,
    })
}

/// The path that a word says, where it says one.
fn path_of(alloc: Global, word: &str) -> Result<FilePath, Status>
    ensures { NamesPath result (path_named word.now) }
{
    match FilePath::of(alloc, word) {
        Ok(path) => Ok(path),
        Err(PathFault::OutOfMemory) => Err(Status::Memory),
        Err(PathFault::Empty) => Err(Status::Usage),
        Err(PathFault::TooLong) => Err(Status::Usage),
        Err(PathFault::BadByte) => Err(Status::Usage),
        Err(PathFault::BadPart) => Err(Status::Usage),
    }
}

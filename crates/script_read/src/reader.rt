// The reader of a script.
use crate::command::{Next, Refusal};
use crate::steps::{lines_of, read_command};
use std::alloc::Global;
use std::marker::Model;
use zw_base::{FileSizes, Limits, Source};

/// Reads the commands of a script, one by one.
#[derive(Debug, Drop)]
pub struct ScriptReader {
    limits: Limits,
    line: u64,
    commands: u32,
    stopped: Option<Refusal>,
}

impl Model for ScriptReader {
    ghost use Rattle.std.specs.Prelude.{◌≤◌};
    ghost use Rattle.script_read.specs.ReaderState.{ReaderState};

    ghost Value = { ReaderState };

    ghost view = { λ r. record { limits = r.limits; line = r.line; commands = r.commands; stopped = r.stopped } };

    ghost invariant = { λ r. r.commands ≤ r.limits.commands };
}

impl ScriptReader {
    ghost use Rattle.std.specs.Prelude.{◌≡◌, ◌≤◌, ◌⊎◌, None, Some, IfSome, IfNone, Err};
    ghost use Rattle.zw_base.specs.Outside.{Rose};
    ghost use Rattle.zw_base.specs.Limits.{AreWithin};
    ghost use Rattle.script_read.specs.Fold.{reader_of};
    ghost use Rattle.script_read.specs.Reads.{Answers, answer_of, after};
    ghost use Rattle.script_read.specs.ScriptLaw.{HasCause, IsExact};

    /// A reader before the first byte of a script.
    pub fn new(shape: Limits) -> ScriptReader
        ensures { result ≡ reader_of shape }
    {
        ScriptReader {
            limits: shape,
            line: 1,
            commands: 0,
            stopped: None,
        }
    }

    /// The next command, or why there is none. `have` are the files as they stand, within the limits.
    /// After any answer but a command it gives the same again and reads nothing.
    pub fn next<S: Source>(&mut self, alloc: Global, s: &mut S, have: &FileSizes) -> Next
        requires { AreWithin self.old.limits have.now }

        // Where it has not stopped, the answer has its cause in the bytes that were left, by the grammar
        // and the order of refusals; and whatever these bytes mean is answered, unless reading failed or
        // there was no memory.
        ensures cause { IfNone self.old.stopped (IfSome (S.left s.old) (λ bytes. HasCause self.old have.now bytes (S.left s.new) result)) }
        ensures exact { IfNone self.old.stopped (IfSome (S.left s.old) (λ bytes. IsExact self.old have.now bytes (S.left s.new) result)) }

        // The same, as a function on the bytes that were left.
        ensures told { IfNone self.old.stopped (IfSome (S.left s.old) (λ bytes. Answers self.old have.now bytes (S.left s.new) result)) }
        ensures limits { self.new.limits ≡ self.old.limits }
        ensures after { IfNone self.old.stopped (self.new ≡ after self.old result) }

        // Once it has stopped it gives the same again, and reads nothing.
        ensures stops { IfSome self.new.stopped (λ refusal. result ≡ answer_of self.new refusal) }
        ensures again { IfSome self.old.stopped (λ _. (self.new ≡ self.old) × (s.new ≡ s.old)) }

        ensures faults { S.faults s.old ≤ S.faults s.new }
        ensures read_fault { result ≡ Next.ReadFault → (self.old.stopped ≡ Some Refusal.ReadFault) ⊎ Rose (S.faults s.old) (S.faults s.new) }
    {
        self.read_next(alloc, s, have)
    }

    /// The next command, or why there is none, as a function on the bytes that were left.
    fn read_next<S: Source>(&mut self, alloc: Global, s: &mut S, have: &FileSizes) -> Next
        requires { AreWithin self.old.limits have.now }
        ensures told { IfNone self.old.stopped (IfSome (S.left s.old) (λ bytes. Answers self.old have.now bytes (S.left s.new) result)) }
        ensures limits { self.new.limits ≡ self.old.limits }
        ensures after { IfNone self.old.stopped (self.new ≡ after self.old result) }
        ensures stops { IfSome self.new.stopped (λ refusal. result ≡ answer_of self.new refusal) }
        ensures again { IfSome self.old.stopped (λ _. (self.new ≡ self.old) × (s.new ≡ s.old)) }
        ensures faults { S.faults s.old ≤ S.faults s.new }
        ensures read_fault { result ≡ Next.ReadFault → (self.old.stopped ≡ Some Refusal.ReadFault) ⊎ Rose (S.faults s.old) (S.faults s.new) }
    {
        if let Some(refusal) = self.stopped {
            return self.answer(refusal);
        }
        match read_command(alloc, s, self.limits, self.commands, have) {
            Ok(command) => {
                self.line = self.line.saturating_add(lines_of(&command));
                self.commands += 1;
                Next::Command(command)
            }
            Err(refusal) => {
                self.stopped = Some(refusal);
                self.answer(refusal)
            }
        }
    }

    /// The answer of a reader that has stopped.
    fn answer(&self, refusal: Refusal) -> Next
        ensures { result ≡ answer_of self.now refusal }
    {
        match refusal {
            Refusal::End => Next::End,
            Refusal::Bad(reason) => Next::BadScript {
                line: self.line,
                reason,
            },
            Refusal::Over(which) => Next::Limit {
                which,
                number: u64::from(self.limits.number(which)),
            },
            Refusal::ReadFault => Next::ReadFault,
            Refusal::OutOfMemory => Next::OutOfMemory,
        }
    }
}

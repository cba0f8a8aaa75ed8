// What a script's bytes mean, apart from any reader.
ghost use Rattle.std.specs.Prelude.{◌≡◌, ℕ, List};
ghost use Rattle.script_read.specs.declared.command.Command.{Command};
ghost use Rattle.zw_base.specs.declared.limits.Limits.{Limits};
ghost use Rattle.script_read.specs.Grammar.{IsSentence};
ghost use Rattle.script_read.specs.Line.{line_ends};
ghost use Rattle.script_read.specs.Reads.{lines_of};
ghost use Rattle.zw_base.specs.Limits.{Sizes};
ghost use Rattle.script_read.specs.Script.{next_of};
ghost use Rattle.script_read.specs.ScriptLaw.{Meaning, Means};

/// The function on bytes that the reader computes gives their meaning: the command whose sentence stands
/// in front, the end, or a refusal by the first cause that stands. So bytes have one meaning, and each has
/// some.
pub fn bytes_have_one_meaning()
    ensures meant { (limits : Limits) (commands : ℕ) (files : Sizes) (bytes : List ℕ) → Means limits commands files bytes (next_of limits commands files bytes) }
    ensures computed { (limits : Limits) (commands : ℕ) (files : Sizes) (bytes : List ℕ) (meaning : Meaning) → Means limits commands files bytes meaning → next_of limits commands files bytes ≡ meaning }
{}

/// A command's text has as many LF bytes as a reader's line number grows by when it answers the command.
pub fn commands_have_their_lines()
    ensures { (given : Command) (text : List ℕ) → IsSentence given text → line_ends text ≡ lines_of given }
{}

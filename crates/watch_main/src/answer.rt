// The text of an answer, and how it is written.
ghost use Rattle.std.specs.Prelude.{◌≡◌, ◌≤◌, ◌++◌, IfOk, OnOk, OnErr};
ghost use Rattle.std.specs.List.{flat_map};
ghost use Rattle.std.specs.String.{string_bytes};
ghost use Rattle.zw_base.specs.Outside.{Rose};
ghost use Rattle.watch_main.specs.AnswerText.{message, place_text, line_text, head_text, text_of, update_text, Says};
ghost use Rattle.watch_core.specs.declared.session.Update.{Update};
ghost use Rattle.watch_main.specs.Steps.{taken_with, TookFront, Ends, IsWritten};

use diag_order::Line;
use std::alloc::{AllocError, Global};
use watch_core::Update;
use zw_base::{DiagCode, Failed, Sink, Status};

#[derive(Debug, Drop)]
/// The text of an answer: its first line, and what follows it.
struct Answer {
    head: String,
    body: Vec<u8>,
    /// How the run ends once it is written.
    status: Status,
}

/// The text of the first update's answer, which is a module or diagnostics.
fn answer_of(alloc: Global, update: Update) -> Result<Option<Answer>, AllocError>
    ensures { IfOk result (λ answer. Says answer update) }
{
    match update {
        Update::Module {
            bytes,
            analysed,
            reused,
        } => {
            let head = head_text(alloc, 1, "module", bytes.len(), analysed, reused)?;
            let mut body = bytes.into_vec();
            body.push(b'\n')?;
            let status = Status::Module;
            Ok(Some(Answer { head, body, status }))
        }
        Update::Errors {
            lines,
            analysed,
            reused,
        } => {
            let head = head_text(alloc, 1, "errors", lines.len(), analysed, reused)?;
            let body = lines_text(alloc, lines.as_slice())?;
            let status = Status::Diagnostics;
            Ok(Some(Answer { head, body, status }))
        }
        Update::Memory => Ok(None),
    }
}

/// The first line of an update's answer.
fn head_text(
    alloc: Global,
    number: u32,
    what: &str,
    count: usize,
    analysed: u32,
    reused: u32,
) -> Result<String, AllocError>
    ensures { IfOk result (λ s. string_bytes s ≡ head_text number what.now count analysed reused) }
{
    format!(in alloc; "update {number} {what} {count} analysed {analysed} reused {reused}\n")
}

/// The lines of diagnostics.
fn lines_text(alloc: Global, lines: &[Line]) -> Result<Vec<u8>, AllocError>
    ensures { IfOk result (λ v. v.items ≡ flat_map line_text lines.now) }
{
    let mut text = Vec::new(alloc);
    for line in lines {
        put_line(alloc, line, &mut text)?;
    }
    Ok(text)
}

/// Appends the line of a diagnostic.
fn put_line(alloc: Global, line: &Line, text: &mut Vec<u8>) -> Result<(), AllocError>
    ensures { OnOk result (text.new.items ≡ text.old.items ++ line_text line.now) }
{
    let place = place_text(alloc, line)?;
    text.extend_from_slice(place.as_bytes())?;
    text.extend_from_slice(message(line))?;
    text.push(b'\n')?;
    Ok(())
}

/// What stands before a diagnostic's message.
fn place_text(alloc: Global, line: &Line) -> Result<String, AllocError>
    ensures { IfOk result (λ s. string_bytes s ≡ place_text line.now) }
{
    let (at, col) = (line.line, line.col);
    let path = line.path.as_str();
    let code = line.code.name();
    format!(in alloc; "{path}:{at}:{col}: error: {code} ")
}

/// What a diagnostic says beside its code.
fn message(line: &Line) -> &[u8]
    ensures { result.now ≡ message line.now.code line.now.text }
{
    match line.code {
        DiagCode::CompileError => line.text.as_slice(),
        code => code.text().as_bytes(),
    }
}

/// Writes bytes, piece after piece as the sink takes them.
fn write_all<K: Sink>(bytes: &[u8], out: &mut K) -> Result<(), Failed>
    ensures ok { OnOk result (K.taken out.new ≡ taken_with (K.taken out.old) bytes.now) }
    ensures err { OnErr result (TookFront (K.taken out.old) (K.taken out.new) bytes.now) }
    ensures faults { K.faults out.old ≤ K.faults out.new }
    ensures rose { OnErr result (Rose (K.faults out.old) (K.faults out.new)) }
{
    let mut rest = bytes;
    while !rest.is_empty() {
        let n = out.write(rest)?;
        rest = rest.split_at(n).1;
    }
    Ok(())
}

/// Writes one piece, and then another.
fn write_both<K: Sink>(head: &[u8], body: &[u8], out: &mut K) -> Result<(), Failed>
    ensures ok { OnOk result (K.taken out.new ≡ taken_with (K.taken out.old) (head.now ++ body.now)) }
    ensures err { OnErr result (TookFront (K.taken out.old) (K.taken out.new) (head.now ++ body.now)) }
    ensures faults { K.faults out.old ≤ K.faults out.new }
    ensures rose { OnErr result (Rose (K.faults out.old) (K.faults out.new)) }
{
    match write_all(head, out) {
        Ok(()) => write_all(body, out),
        Err(Failed) => Err(Failed),
    }
}

/// Writes that the first update found no memory. Takes none itself.
fn write_memory<K: Sink>(out: &mut K) -> Status
    ensures ends { (answer : Update) → Ends result (K.taken out.old) (K.taken out.new) answer }
    ensures kind { IsWritten result }
    ensures faults { K.faults out.old ≤ K.faults out.new }
    ensures rose { result ≡ Status.WriteFault → Rose (K.faults out.old) (K.faults out.new) }
{
    match write_all(b"update 1 memory\n", out) {
        Ok(()) => Status::Memory,
        Err(Failed) => Status::WriteFault,
    }
}

/// Writes the first update's answer, or where there is no memory for its text that there is none, and
/// says how the run ends.
pub fn write_update<K: Sink>(alloc: Global, update: Update, out: &mut K) -> Status
    ensures ends { Ends result (K.taken out.old) (K.taken out.new) update }
    ensures kind { IsWritten result }
    ensures faults { K.faults out.old ≤ K.faults out.new }
    ensures rose { result ≡ Status.WriteFault → Rose (K.faults out.old) (K.faults out.new) }
{
    let Ok(Some(answer)) = answer_of(alloc, update) else {
        return write_memory(out);
    };
    match write_both(answer.head.as_bytes(), answer.body.as_slice(), out) {
        Ok(()) => answer.status,
        Err(Failed) => Status::WriteFault,
    }
}

//! Why an answer of a text is one.

ghost use Rattle.std.specs.Prelude.{◌≡◌, ◌≤◌, false, length, IfOk};
ghost use Rattle.and_answers.specs.Kept.{finish_of, listed};
ghost use Rattle.and_model.specs.Output.{last_lines};
ghost use Rattle.and_model.specs.declared.limits.TheConstants.{MAX_LIMIT};
ghost use Rattle.and_program.specs.Loaded.{program_of};
ghost use Rattle.and_proof.specs.Proofs.{HasProof};
ghost use Rattle.and_search_laws.specs.Found.{FindsFirst};
ghost use Rattle.and_questions.specs.Explained as specs;
ghost use Rattle.and_questions.specs.Lifted.{IsLifted};
ghost use Rattle.and_questions.specs.Explained.{Documents, lacking_status};
ghost use Rattle.and_questions.specs.Replied.{WasExplained};

use and_answers::{Found, Latest};
use and_model::{Code, Text};
use and_program::Loaded;
use and_proof::proof_text;
use and_questions::Reply;
use and_status::Status;
use std::alloc::{AllocError, Global};

/// Whether bytes end with a newline.
fn ends_line(bytes: &[u8]) -> bool
    ensures { result ≡ specs.ends_line bytes.now }
{
    match bytes.last().copied() {
        Some(byte) => byte == b'\n',
        None => false,
    }
}

/// The bytes, and a newline where they do not end with one.
fn whole_lines(alloc: Global, bytes: &[u8]) -> Result<Text, AllocError>
    ensures { IfOk result (λ text. text ≡ specs.whole_lines bytes.now) }
{
    let mut text = Text::of(alloc, bytes)?;
    if ends_line(bytes) {
        return Ok(text);
    }
    text.append(b"\n")?;
    Ok(text)
}

/// The text of a program, and the proof of a code of it.
fn document(alloc: Global, loaded: &Loaded, bytes: &[u8], code: &Code) -> Result<Text, AllocError>
    requires { HasProof (program_of loaded.now) code.now }
    ensures { IfOk result (Documents (program_of loaded.now) bytes.now code.now) }
{
    let proof = proof_text(alloc, loaded, code)?;
    let mut text = whole_lines(alloc, bytes)?;
    text.append(proof.bytes())?;
    Ok(text)
}

/// What is told where there is no such answer.
fn lacking(alloc: Global, found: &Found) -> Result<Reply, AllocError>
    ensures text { IfOk result (λ reply. reply.text ≡ last_lines (finish_of found.now false)) }
    ensures status { IfOk result (λ reply. reply.status ≡ lacking_status found.now.cut) }
{
    if found.cut.is_some() {
        return Ok(Reply {
            text: Text::of(alloc, b"% limit met\n")?,
            status: Status::Limit,
            refusal: None,
        });
    }
    Ok(Reply {
        text: Text::of(alloc, b"% complete\n")?,
        status: Status::NoAnswer,
        refusal: None,
    })
}

/// What is told of an answer of a program, by its place: the last of the first that were found, if there are so many.
/// An error is want of memory.
pub fn explained(
    alloc: Global,
    place: u32,
    bytes: &[u8],
    loaded: &Loaded,
    latest: Latest,
) -> Result<Reply, AllocError>
    requires place { 1 ≤ place }
    requires few { length (listed latest) ≤ place }
    requires found { (limit : _) × (limit ≤ MAX_LIMIT) × FindsFirst (program_of loaded.now) limit place latest }
    ensures { (program : _) (limit : _) → limit ≤ MAX_LIMIT → IsLifted program (program_of loaded.now)
        → FindsFirst (program_of loaded.now) limit place latest
        → IfOk result (λ reply. WasExplained place limit bytes.now program reply.status reply.text) }
{
    let (found, last) = latest.into_parts();
    if found.entries().len() < place as usize {
        return lacking(alloc, &found);
    }
    match last {
        Some(code) => {
            let text = document(alloc, loaded, bytes, &code)?;
            Ok(Reply {
                text,
                status: Status::Answers,
                refusal: None,
            })
        }
        None => lacking(alloc, &found),
    }
}

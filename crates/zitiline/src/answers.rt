ghost use Rattle.std.specs.Prelude.{◌≡◌, IfOk};
ghost use Rattle.std.specs.Option.{option_map};
ghost use Rattle.std.specs.String.{string_bytes};
ghost use Rattle.zitiline.specs.Notes.{note_of};
ghost use Rattle.zitiline.specs.Steps.{IsAnswer, fault_text, note_in};

use crate::notes::fault_note;
use crate::words::Whole;
use answer_lines::{AnswerFault, answers};
use ctrl_model::Bytes;
use frame_lines::{DecodeFault, LineFault, check, encode};
use std::alloc::{AllocError, Global};
use trace_lines::{TraceFault, trace};

/// What is said of an input, the note of its fault, if it has one, and whether it has a refusal.
#[derive(Drop)]
pub struct Answer {
    pub said: Bytes,
    pub note: Option<String>,
    pub refused: bool,
}

/// The fault of an input of each form.
#[derive(Clone, Copy)]
pub enum Fault {
    Line(LineFault),
    Trace(TraceFault),
    Frame(DecodeFault),
    Answers(AnswerFault),
}

fn text_of(alloc: Global, fault: &Fault) -> Result<String, AllocError>
    ensures { IfOk result (λ text. string_bytes text ≡ fault_text fault.now) }
{
    match fault {
        Fault::Line(fault) => fault.text(alloc),
        Fault::Trace(fault) => fault.text(alloc),
        Fault::Frame(fault) => fault.text(alloc),
        Fault::Answers(fault) => fault.text(alloc),
    }
}

/// The note of a fault, if there is one.
pub fn note_of(alloc: Global, fault: Option<Fault>) -> Result<Option<String>, AllocError>
    ensures { IfOk result (λ note. option_map string_bytes note ≡ option_map (λ f. note_of (fault_text f)) fault) }
{
    let Some(fault) = fault else {
        return Ok(None);
    };
    let text = text_of(alloc, &fault)?;
    Ok(Some(fault_note(alloc, text.as_str())?))
}

// What is said, with the note of the fault, if there is one.
fn answer_with(
    alloc: Global,
    said: Bytes,
    fault: Option<Fault>,
    refused: bool,
) -> Result<Answer, AllocError>
    ensures { IfOk result (λ a. (a.said ≡ said) × (note_in a ≡ option_map (λ f. note_of (fault_text f)) fault) × (a.refused ≡ refused)) }
{
    let note = note_of(alloc, fault)?;
    Ok(Answer {
        said,
        note,
        refused,
    })
}

/// What is said of an input that was read whole, and the note of its fault.
pub fn answer_to(alloc: Global, whole: Whole, input: &[u8]) -> Result<Answer, AllocError>
    ensures { IfOk result (λ a. IsAnswer whole input.now a) }
{
    match whole {
        Whole::Encode => {
            let encoded = encode(alloc, input)?;
            answer_with(alloc, encoded.bytes, encoded.fault.map(Fault::Line), false)
        }
        Whole::Trace => {
            let traced = trace(alloc, input)?;
            answer_with(alloc, traced.bytes, traced.fault.map(Fault::Trace), false)
        }
        Whole::Check => {
            let checked = check(alloc, input)?;
            answer_with(alloc, checked.told, checked.fault.map(Fault::Line), false)
        }
        Whole::Answers => {
            let answered = answers(alloc, input)?;
            let fault = answered.fault.map(Fault::Answers);
            answer_with(alloc, answered.told, fault, answered.refused)
        }
    }
}

ghost use Rattle.std.specs.Prelude.{◌≡◌, ◌++◌, ◌-◌, ◌+◌, ◌≤◌, IfOk, OnOk, length};
ghost use Rattle.std.specs.Option.{option_map};
ghost use Rattle.std.specs.String.{string_bytes};
ghost use Rattle.frame_lines.specs.TextReading.{fault_said};
ghost use Rattle.frame_lines.specs.LineWords.{first_word};
ghost use Rattle.frame_lines.specs.NearNames.{near_name};
ghost use Rattle.frame_lines.specs.TextFaults.{name_on, part_on, wanted_name, wanted_for, near_for, near_words, fault_with, fault_line, faults_told};
ghost use Rattle.frame_lines.specs.CheckTurns.{ChecksLine};

use crate::cutting::{cut_line, cut_word};
use crate::lines::{LineCause, LineFault};
use crate::nearness::near_name;
use crate::reading::{passes, read_line};
use crate::words::are_digits;
use ctrl_model::Bytes;
use std::alloc::{AllocError, Global};

/// The lines that tell all faults of a text, each with its newline, and the first of the faults.
#[derive(Drop)]
pub struct Checked {
    pub told: Bytes,
    pub fault: Option<LineFault>,
}

// A line from its NAME on.
#[tactic(auto, using(crate::proofs::CheckLaws::behind_fits))]
fn name_on(line: &[u8]) -> &[u8]
    ensures part { result.now ≡ name_on line.now }
    ensures within { length result.now ≤ length line.now }
{
    let (word, behind) = cut_word(line);
    if !are_digits(word) {
        return line;
    }
    behind
}

// A line from the part on that is at fault.
#[tactic(auto, using(crate::proofs::CheckLaws::behind_fits))]
fn part_on(cause: LineCause, line: &[u8]) -> &[u8]
    ensures part { result.now ≡ part_on cause line.now }
    ensures within { length result.now ≤ length line.now }
{
    match cause {
        LineCause::BadSequence => line,
        LineCause::UnknownType => name_on(line),
        LineCause::TooLong => {
            let (_, body) = cut_word(name_on(line));
            body
        }
    }
}

fn column_of(cause: LineCause, line: &[u8]) -> u64
    ensures { result ≡ length line.now - length (part_on cause line.now) + 1 }
{
    let part = part_on(cause, line);
    (line.len() - part.len()) as u64 + 1
}

fn wanted_name(line: &[u8]) -> &'static str
    ensures { result.now ≡ wanted_name line.now }
{
    let (word, _) = cut_word(line);
    if are_digits(word) {
        return "NAME is the name of a command, or 0 to 4294967295 without zeros before it";
    }
    "NAME is the name of a command"
}

// What the part at fault is to be.
fn wanted_for(cause: LineCause, line: &[u8]) -> &'static str
    ensures { result.now ≡ wanted_for cause line.now }
{
    match cause {
        LineCause::BadSequence => "SEQUENCE is 0 to 4294967295 without zeros before it",
        LineCause::UnknownType => wanted_name(line),
        LineCause::TooLong => "BODY has at most 1048576 bytes",
    }
}

// The known name that is near to what stands in place of a NAME.
fn near_in(line: &[u8]) -> Option<&'static str>
    ensures { option_map (λ name. name.now) result ≡ near_name (first_word (name_on line.now)) }
{
    let (word, _) = cut_word(name_on(line));
    near_name(word)
}

// The known name that is near to what stands in place of one.
fn near_for(cause: LineCause, line: &[u8]) -> Option<&'static str>
    ensures { option_map (λ name. name.now) result ≡ near_for cause line.now }
{
    match cause {
        LineCause::BadSequence => None,
        LineCause::UnknownType => near_in(line),
        LineCause::TooLong => None,
    }
}

fn near_words(alloc: Global, near: Option<&'static str>) -> Result<String, AllocError>
    ensures { IfOk result (λ words. string_bytes words ≡ near_words (option_map (λ name. name.now) near.entry)) }
{
    match near {
        Some(name) => format!(in alloc; "; near is {name}"),
        None => Ok(String::new(alloc)),
    }
}

// The line that tells the fault of a line, with its newline.
fn fault_line(alloc: Global, fault: LineFault, line: &[u8]) -> Result<String, AllocError>
    ensures { IfOk result (λ told. string_bytes told ≡ fault_line (fault_with fault.line line.now fault.cause)) }
{
    let front = fault.text(alloc)?;
    let near = near_words(alloc, near_for(fault.cause, line))?;
    let text = front.as_str();
    let column = column_of(fault.cause, line);
    let wanted = wanted_for(fault.cause, line);
    let end = near.as_str();
    format!(in alloc; "{text} at column {column}: {wanted}{end}\n")
}

fn put_fault(
    alloc: Global,
    out: &mut Vec<u8>,
    fault: LineFault,
    line: &[u8],
) -> Result<(), AllocError>
    ensures { OnOk result (out.new.items ≡ out.old.items ++ fault_line (fault_with fault.line line.now fault.cause)) }
{
    let told = fault_line(alloc, fault, line)?;
    out.extend_from_slice(told.as_bytes())
}

// Puts the fault of a line of this number down, and answers it, if it has one.
fn check_line(
    alloc: Global,
    out: &mut Vec<u8>,
    number: u64,
    line: &[u8],
) -> Result<Option<LineFault>, AllocError>
    ensures { IfOk result (λ found. ChecksLine number line.now out.old.items out.new.items found) }
{
    if passes(line) {
        return Ok(None);
    }
    match read_line(alloc, line)? {
        Ok(said) => {
            drop(said);
            Ok(None)
        }
        Err(cause) => {
            let fault = LineFault {
                line: number,
                cause,
            };
            put_fault(alloc, out, fault, line)?;
            Ok(Some(fault))
        }
    }
}

/// All faults of a text, a line for each, and the first one, at which `encode` ends.
pub fn check(alloc: Global, text: &[u8]) -> Result<Checked, AllocError>
    ensures told { IfOk result (λ c. c.told ≡ faults_told text.now) }
    ensures fault { IfOk result (λ c. c.fault ≡ fault_said text.now) }
{
    let mut out = Vec::new(alloc);
    let mut fault = None;
    let mut number = 1u64;
    let mut rest = text;
    'lines: while !rest.is_empty() {
        let (line, after) = cut_line(rest);
        let found = check_line(alloc, &mut out, number, line)?;
        fault = fault.or(found);
        number += 1;
        rest = after;
    }
    Ok(Checked {
        told: Bytes::of(out),
        fault,
    })
}

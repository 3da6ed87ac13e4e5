ghost use Rattle.std.specs.Prelude.{◌≡◌, ◌++◌, codes, IfOk, OnOk};
ghost use Rattle.std.specs.List.{flat_map};
ghost use Rattle.access_reasons.specs.ReasonLines.{behind_comma, joined, line_of, lines_of, part_text, rule_word, verdict_word};

use crate::findings::{Finding, Findings, Part};
use ctrl_model::{Bytes, Denial};
use std::alloc::{AllocError, Global};

fn rule_word(rule: Denial) -> &'static str
    ensures { result.now ≡ rule_word rule }
{
    match rule {
        Denial::UnknownIdentity => "identity",
        Denial::UnknownService => "service",
        Denial::UnknownRouter => "ingress",
        Denial::NoDial => "dial",
        Denial::NoSharedRouter => "shared-router",
        Denial::SharedRoutersOffline => "online-router",
        Denial::NoTerminators => "terminator",
        Denial::NoAdmissibleTerminator => "admissible-terminator",
        Denial::NoPath => "path",
        Denial::CircuitsFull => "room",
    }
}

fn verdict_word(fails: bool) -> &'static str
    ensures { result.now ≡ verdict_word fails }
{
    if fails {
        return "fails ";
    }
    "ok "
}

// Puts items down, each behind a comma.
fn put_behind(out: &mut Vec<u8>, items: &[Bytes]) -> Result<(), AllocError>
    ensures { OnOk result (out.new.items ≡ out.old.items ++ flat_map behind_comma items.now) }
{
    'items: for item in items {
        out.push(b',')?;
        out.extend_from_slice(item.as_slice())?;
    }
    Ok(())
}

// Puts items down, with a comma between two.
fn put_items(out: &mut Vec<u8>, items: &[Bytes]) -> Result<(), AllocError>
    ensures { OnOk result (out.new.items ≡ out.old.items ++ joined items.now) }
{
    match items {
        [] => Ok(()),
        [first, rest @ ..] => {
            out.extend_from_slice(first.as_slice())?;
            put_behind(out, rest)
        }
    }
}

// Puts a part down behind a space.
fn put_part(out: &mut Vec<u8>, part: &Part) -> Result<(), AllocError>
    ensures { OnOk result (out.new.items ≡ out.old.items ++ part_text part.now) }
{
    out.push(b' ')?;
    out.extend_from_slice(part.key.as_slice())?;
    out.push(b'=')?;
    put_items(out, part.items.as_slice())
}

fn put_parts(out: &mut Vec<u8>, parts: &[Part]) -> Result<(), AllocError>
    ensures { OnOk result (out.new.items ≡ out.old.items ++ flat_map part_text parts.now) }
{
    'parts: for part in parts {
        put_part(out, part)?;
    }
    Ok(())
}

// Puts the line of a finding down, with its newline.
fn put_line(out: &mut Vec<u8>, finding: &Finding) -> Result<(), AllocError>
    ensures { OnOk result (out.new.items ≡ out.old.items ++ line_of finding.now) }
{
    out.extend_from_slice(verdict_word(finding.fails).as_bytes())?;
    out.extend_from_slice(rule_word(finding.rule).as_bytes())?;
    put_parts(out, finding.parts.as_slice())?;
    out.push(b'\n')?;
    Ok(())
}

/// The lines of findings, one for each, with its newline (docs/FORMATS.md, "Reasons"). An `Err` is want of memory.
pub fn lines(alloc: Global, findings: &Findings) -> Result<Bytes, AllocError>
    ensures { IfOk result (λ text. text ≡ lines_of findings.now) }
{
    let mut out = Vec::new(alloc);
    'findings: for finding in findings.as_slice() {
        put_line(&mut out, finding)?;
    }
    Ok(Bytes::of(out))
}

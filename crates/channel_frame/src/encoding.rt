ghost use Rattle.std.specs.Prelude.{◌≡◌, [], ◌++◌, ◌≤◌, OnOk, OnErr, IfOk, length};
ghost use Rattle.channel_frame.specs.FrameSpelling.{number, header_spelling, headers_spelling, head_spelling, head_for, spelling, KeepsLimits, longest_headers};

use crate::frames::{Frame, Head, Header, MARKER};
use ctrl_model::Bytes;
use std::alloc::{AllocError, Global};

/// How many bytes stand before the value of a header: its key and its length.
const HEADER: usize = 8;

fn push_number(out: &mut Vec<u8>, n: u32) -> Result<(), AllocError>
    ensures { OnOk result (out.new.items ≡ out.old.items ++ number n) }
{
    out.extend_from_slice(&n.to_le_bytes())
}

fn push_header(out: &mut Vec<u8>, header: &Header) -> Result<(), AllocError>
    requires { length header.now.value ≤ longest_headers }
    ensures { OnOk result (out.new.items ≡ out.old.items ++ header_spelling header.now) }
{
    push_number(out, header.key)?;
    push_number(out, header.value.len() as u32)?;
    out.extend_from_slice(header.value.as_slice())
}

fn push_headers(out: &mut Vec<u8>, headers: &[Header]) -> Result<(), AllocError>
    requires { length (headers_spelling headers.now) ≤ longest_headers }
    ensures { OnOk result (out.new.items ≡ out.old.items ++ headers_spelling headers.now) }
{
    'headers: for header in headers {
        push_header(out, header)?;
    }
    Ok(())
}

fn push_head(out: &mut Vec<u8>, head: &Head) -> Result<(), AllocError>
    ensures { OnOk result (out.new.items ≡ out.old.items ++ head_spelling head.now) }
{
    out.extend_from_slice(&MARKER)?;
    push_number(out, head.content)?;
    push_number(out, head.sequence)?;
    push_number(out, head.headers_len)?;
    push_number(out, head.body_len)
}

fn headers_len(headers: &[Header]) -> usize
    requires { length (headers_spelling headers.now) ≤ longest_headers }
    ensures { result ≡ length (headers_spelling headers.now) }
{
    let mut len = 0;
    'headers: for header in headers {
        len += HEADER + header.value.len();
    }
    len
}

fn head_of(frame: &Frame) -> Head
    requires { KeepsLimits frame.now }
    ensures { result ≡ head_for frame.now }
{
    Head {
        content: frame.content,
        sequence: frame.sequence,
        headers_len: headers_len(frame.headers.as_slice()) as u32,
        body_len: frame.body.len() as u32,
    }
}

fn push_frame(out: &mut Vec<u8>, frame: &Frame) -> Result<(), AllocError>
    requires { KeepsLimits frame.now }
    ensures { OnOk result (out.new.items ≡ out.old.items ++ spelling frame.now) }
{
    push_head(out, &head_of(frame))?;
    push_headers(out, frame.headers.as_slice())?;
    out.extend_from_slice(frame.body.as_slice())
}

/// The one spelling of a frame comes behind the bytes of a buffer. Each byte of it is written once.
///
/// The parts of the frame keep their limits: 65,536 bytes of headers and 1,048,576 of body. Where memory is wanting, the buffer
/// is empty.
pub fn encode_behind(out: &mut Vec<u8>, frame: &Frame) -> Result<(), AllocError>
    requires { KeepsLimits frame.now }
    ensures ok { OnOk result (out.new.items ≡ out.old.items ++ spelling frame.now) }
    ensures err { OnErr result (out.new.items ≡ []) }
{
    match push_frame(out, frame) {
        Ok(()) => Ok(()),
        Err(error) => {
            out.clear();
            Err(error)
        }
    }
}

/// The one spelling of a frame whose parts keep their limits: 65,536 bytes of headers and 1,048,576 of body.
pub fn encode(alloc: Global, frame: &Frame) -> Result<Bytes, AllocError>
    requires { KeepsLimits frame.now }
    ensures { IfOk result (λ bytes. bytes ≡ spelling frame.now) }
{
    let mut out = Vec::new(alloc);
    encode_behind(&mut out, frame)?;
    Ok(Bytes::of(out))
}

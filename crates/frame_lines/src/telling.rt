ghost use Rattle.std.specs.Prelude.{◌≡◌, ◌==◌, ◌++◌, ◌∷◌, ◌-◌, [], None, IfOk, OnOk, length, slice_index};
ghost use Rattle.channel_frame.specs.StreamReading.{number_at};
ghost use Rattle.std.specs.List.{list_any};
ghost use Rattle.std.specs.Option.{option_map};
ghost use Rattle.std.specs.String.{string_bytes};
ghost use Rattle.frame_lines.specs.FrameLines.{is_header, is_request, is_success, wide_of, piece_in, piece_of, piece_words, reply_in, reply_of, reply_words, sort_words, frame_words, words_for, body_words, body_cause, line_from, line_for};
ghost use Rattle.frame_lines.specs.FrameTurns.{PutsLine};

use crate::told::TellCause;
use crate::types::name_numbered;
use channel_frame::{Frame, Header};
use std::alloc::{AllocError, Global};
use std::str;

fn is_request(header: &Header) -> bool
    ensures { result ≡ is_request header.now }
{
    header.key == 1 && header.value.len() == 4
}

fn is_success(header: &Header) -> bool
    ensures { result ≡ is_success header.now }
{
    let value = header.value.as_slice();
    header.key == 2 && value.len() == 1 && value[0] < 2
}

// The number and the flag of a reply's two headers.
fn reply_in(headers: &[Header]) -> Option<(u32, bool)>
    ensures { result ≡ reply_in headers.now }
{
    match headers {
        [request, success] if is_request(request) && is_success(success) => {
            let number = request.value.as_slice();
            let flag = success.value.as_slice();
            let request = u32::from_le_bytes([number[0], number[1], number[2], number[3]]);
            Some((request, flag[0] == 1))
        }
        _ => None,
    }
}

fn reply_of(frame: &Frame) -> Option<(u32, bool)>
    ensures { result ≡ reply_of frame.now }
{
    if frame.content == 2 {
        reply_in(frame.headers.as_slice())
    } else {
        None
    }
}

fn reply_words(alloc: Global, request: u32, success: bool) -> Result<String, AllocError>
    ensures { IfOk result (λ words. string_bytes words ≡ reply_words (request, success)) }
{
    if success {
        format!(in alloc; "{request} ok")
    } else {
        format!(in alloc; "{request} refused")
    }
}

fn frame_words(alloc: Global, frame: &Frame) -> Result<String, AllocError>
    ensures { IfOk result (λ words. string_bytes words ≡ frame_words frame.now) }
{
    let sequence = frame.sequence;
    let content = frame.content;
    match name_numbered(content) {
        Some(name) => format!(in alloc; "{sequence} {name}"),
        None => format!(in alloc; "{sequence} {content}"),
    }
}

fn is_header(header: &Header, key: u32, len: usize) -> bool
    ensures { result ≡ is_header key len header.now }
{
    header.key == key && header.value.len() == len
}

fn number_of(value: &[u8]) -> u32
    requires { length value.now ≡ 4 }
    ensures { result ≡ number_at 0 value.now }
{
    u32::from_le_bytes([value[0], value[1], value[2], value[3]])
}

fn wide_of(value: &[u8]) -> u64
    requires { length value.now ≡ 8 }
    ensures { result ≡ wide_of value.now }
{
    u64::from_le_bytes([
        value[0], value[1], value[2], value[3], value[4], value[5], value[6], value[7],
    ])
}

// The numbers of the three headers of a piece.
fn piece_in(headers: &[Header]) -> Option<(u64, (u32, u32))>
    ensures { result ≡ piece_in headers.now }
{
    match headers {
        [serial, number, count]
            if is_header(serial, 1000, 8)
                && is_header(number, 1001, 4)
                && is_header(count, 1002, 4) => {
            let serial = wide_of(serial.value.as_slice());
            let number = number_of(number.value.as_slice());
            let count = number_of(count.value.as_slice());
            Some((serial, (number, count)))
        }
        _ => None,
    }
}

fn piece_of(frame: &Frame) -> Option<(u64, (u32, u32))>
    ensures { result ≡ piece_of frame.now }
{
    if frame.content == 1900 || frame.content == 1901 {
        piece_in(frame.headers.as_slice())
    } else {
        None
    }
}

// What stands before the serial, by the sort of the batch.
fn sort_words(content: u32) -> &'static str
    ensures { result.now ≡ sort_words content }
{
    if content == 1900 {
        " whole serial="
    } else {
        " next serial="
    }
}

// The line of a frame that carries a piece with these numbers in its headers.
fn piece_words(alloc: Global, frame: &Frame, piece: (u64, (u32, u32))) -> Result<String, AllocError>
    ensures { IfOk result (λ words. string_bytes words ≡ piece_words frame.now piece) }
{
    let sequence = frame.sequence;
    let sort = sort_words(frame.content);
    let (serial, (number, count)) = piece;
    let len = frame.body.len();
    format!(in alloc; "{sequence}{sort}{serial} piece={number} count={count} bytes={len}")
}

// What the line of a frame begins with, if a line can tell its headers.
fn words_for(alloc: Global, frame: &Frame) -> Result<Option<String>, AllocError>
    ensures { IfOk result (λ words. option_map string_bytes words ≡ words_for frame.now) }
{
    if let Some((request, success)) = reply_of(frame) {
        return Ok(Some(reply_words(alloc, request, success)?));
    }
    if !frame.headers.is_empty() {
        return Ok(None);
    }
    Ok(Some(frame_words(alloc, frame)?))
}

fn has_newline(body: &[u8]) -> bool
    ensures { result ≡ list_any (λ b. b == 10) body.now }
{
    body.iter().any(|b| *b == b'\n')
}

fn ends_in_return(body: &[u8]) -> bool
    ensures { result ≡ (slice_index body.now (length body.now - 1) == 13) }
{
    let len = body.len();
    len > 0 && body[len - 1] == b'\r'
}

fn body_cause(body: &[u8]) -> Option<TellCause>
    ensures { result ≡ body_cause body.now }
{
    if has_newline(body) {
        return Some(TellCause::Newline);
    }
    if ends_in_return(body) {
        return Some(TellCause::Return);
    }
    match str::from_utf8(body) {
        Ok(_) => None,
        Err(_) => Some(TellCause::NotText),
    }
}

fn push_body(out: &mut Vec<u8>, body: &[u8]) -> Result<(), AllocError>
    ensures { OnOk result (out.new.items ≡ out.old.items ++ body_words body.now) }
{
    if body.is_empty() {
        return Ok(());
    }
    out.push(b' ')?;
    out.extend_from_slice(body)
}

// Puts the line of a frame down that carries no piece.
fn put_plain(
    alloc: Global,
    out: &mut Vec<u8>,
    frame: &Frame,
) -> Result<Result<(), TellCause>, AllocError>
    ensures { IfOk result (λ put. PutsLine (line_from None frame.now) out.old.items out.new.items put) }
{
    let Some(words) = words_for(alloc, frame)? else {
        return Ok(Err(TellCause::Headers));
    };
    if let Some(cause) = body_cause(frame.body.as_slice()) {
        return Ok(Err(cause));
    }
    out.extend_from_slice(words.as_bytes())?;
    push_body(out, frame.body.as_slice())?;
    out.push(b'\n')?;
    Ok(Ok(()))
}

fn put_words(out: &mut Vec<u8>, words: &str) -> Result<(), AllocError>
    ensures { OnOk result (out.new.items ≡ out.old.items ++ (words.now ++ 10 ∷ [])) }
{
    out.extend_from_slice(words.as_bytes())?;
    out.push(b'\n')?;
    Ok(())
}

/// Puts the line of a frame down with its newline, or answers why no line tells the frame.
pub fn put_line(
    alloc: Global,
    out: &mut Vec<u8>,
    frame: &Frame,
) -> Result<Result<(), TellCause>, AllocError>
    ensures { IfOk result (λ put. PutsLine (line_for frame.now) out.old.items out.new.items put) }
{
    match piece_of(frame) {
        Some(piece) => {
            let words = piece_words(alloc, frame, piece)?;
            put_words(out, words.as_str())?;
            Ok(Ok(()))
        }
        None => put_plain(alloc, out, frame),
    }
}

ghost use Rattle.std.specs.Prelude.{◌≡◌, ◌≢◌, ◌≤◌, ◌↔◌, IfOk, IfErr, IsErrOf, MatchOption, MatchResult, None, Some, Ok, is_some, true, length, take, drop};
ghost use Rattle.channel_frame.specs.declared.frames.Frame.{Frame};
ghost use Rattle.channel_frame.specs.declared.frames.Head.{Head};
ghost use Rattle.channel_frame.specs.declared.frames.Front.TheVariants.{Bad, Whole};
ghost use Rattle.channel_frame.specs.FrameSpelling.{IsFrame, IsHead, spelling, head_spelling};
ghost use Rattle.channel_frame.specs.StreamReading.{head_of, frame_len, IsAnnounced, header_at, headers_of, front, number_at, starts_with_marker};
ghost use Rattle.channel_frame.specs.AnnouncedFrames.{IsWholeFront};

use crate::frames::{
    Frame, FrameFault, HEAD, Head, Header, Headers, LONGEST_BODY, LONGEST_HEADERS, MARKER,
};
use ctrl_model::Bytes;
use std::alloc::{AllocError, Global};

fn has_marker(bytes: &[u8; 20]) -> bool
    ensures { result ≡ starts_with_marker bytes.now }
{
    bytes[0] == MARKER[0] && bytes[1] == MARKER[1] && bytes[2] == MARKER[2] && bytes[3] == MARKER[3]
}

/// What the first 20 bytes of a frame say.
///
/// `BadMarker` comes exactly where the first four bytes differ from the marker; else `TooLong` exactly where a length
/// passes its limit. The other two faults never come, and no memory is taken.
pub fn read_head(bytes: &[u8; 20]) -> Result<Head, FrameFault>
    ensures exact { result ≡ head_of bytes.now }
    // What is read is spelled so, and what is spelled so is read.
    ensures spelled { (h : Head) → IsHead h → ((result ≡ Ok h) ↔ (bytes.now ≡ head_spelling h)) }
{
    if !has_marker(bytes) {
        return Err(FrameFault::BadMarker);
    }
    let headers_len = u32::from_le_bytes([bytes[12], bytes[13], bytes[14], bytes[15]]);
    let body_len = u32::from_le_bytes([bytes[16], bytes[17], bytes[18], bytes[19]]);
    if headers_len > LONGEST_HEADERS || body_len > LONGEST_BODY {
        return Err(FrameFault::TooLong);
    }
    Ok(Head {
        content: u32::from_le_bytes([bytes[4], bytes[5], bytes[6], bytes[7]]),
        sequence: u32::from_le_bytes([bytes[8], bytes[9], bytes[10], bytes[11]]),
        headers_len,
        body_len,
    })
}

// How many bytes the header takes that stands at the front of some bytes, if a whole one does.
fn header_len(bytes: &[u8]) -> Option<usize>
    ensures { MatchOption result (header_at bytes.now ≡ None)
        (λ len. (8 ≤ len) × (len ≤ length bytes.now) × (header_at bytes.now ≡ Some (record { key = number_at 0 bytes.now; value = drop 8 (take len bytes.now) }))) }
{
    if bytes.len() < 8 {
        return None;
    }
    let value_len = u32::from_le_bytes([bytes[4], bytes[5], bytes[6], bytes[7]]) as usize;
    let len = 8 + value_len;
    if bytes.len() < len {
        return None;
    }
    Some(len)
}

// Whether a headers part is a row of headers that fills it.
fn are_headers(part: &[u8]) -> bool
    ensures { result ≡ is_some (headers_of part.now) }
{
    let mut rest = part;
    'headers: while let Some(len) = header_len(rest) {
        let (_, after) = rest.split_at(len);
        rest = after;
    }
    rest.is_empty()
}

// The header that some bytes spell.
fn header_of(alloc: Global, bytes: &[u8]) -> Result<Header, AllocError>
    requires { 8 ≤ length bytes.now }
    ensures { IfOk result (λ h. h ≡ record { key = number_at 0 bytes.now; value = drop 8 bytes.now }) }
{
    let key = u32::from_le_bytes([bytes[0], bytes[1], bytes[2], bytes[3]]);
    let (_, value) = bytes.split_at(8);
    let value = Bytes::from_slice(alloc, value)?;
    Ok(Header { key, value })
}

// The headers of a headers part that is a row of headers.
fn headers_from(alloc: Global, part: &[u8]) -> Result<Headers, AllocError>
    requires { is_some (headers_of part.now) ≡ true }
    ensures { IfOk result (λ hs. headers_of part.now ≡ Some hs) }
{
    let mut items = Vec::new(alloc);
    let mut rest = part;
    'headers: while let Some(len) = header_len(rest) {
        let (header, after) = rest.split_at(len);
        items.push(header_of(alloc, header)?)?;
        rest = after;
    }
    Ok(Headers::of(items))
}

/// The frame that the bytes spell, of which the head was read: so it is not decoded again.
///
/// `BadHeaders` comes exactly where the headers part is no row of headers that fills it; else only memory can be wanting. The fault is
/// found before memory is taken.
pub fn read_frame_with(alloc: Global, head: Head, bytes: &[u8]) -> Result<Frame, FrameFault>
    requires head { head_of bytes.now ≡ Ok head }
    requires all { length bytes.now ≡ frame_len head }
    ensures spelled { IfOk result (λ f. IsFrame f × (spelling f ≡ bytes.now)) }
    ensures read { (f : Frame) → IsFrame f → spelling f ≡ bytes.now → MatchResult result (λ g. g ≡ f) (λ e. e ≡ FrameFault.NoMemory) }
    ensures whole { IfOk result (λ f. front bytes.now ≡ Whole f (length bytes.now)) }
    ensures fault { IfErr result (λ e. e ≢ FrameFault.NoMemory → (e ≡ FrameFault.BadHeaders) × (front bytes.now ≡ Bad e)) }
    // Memory is wanted for a frame alone.
    ensures memory { IsErrOf result FrameFault.NoMemory → IsWholeFront bytes.now }
{
    let (_, after) = bytes.split_at(HEAD);
    let (part, body) = after.split_at(head.headers_len as usize);
    if !are_headers(part) {
        return Err(FrameFault::BadHeaders);
    }
    let headers = headers_from(alloc, part)?;
    let body = Bytes::from_slice(alloc, body)?;
    Ok(Frame {
        content: head.content,
        sequence: head.sequence,
        headers,
        body,
    })
}

/// The frame that the bytes spell: a good head and exactly the bytes that it announces.
///
/// `BadHeaders` comes exactly where the headers part is no row of headers that fills it; else only memory can be wanting. The fault is
/// found before memory is taken.
pub fn read_frame(alloc: Global, bytes: &[u8]) -> Result<Frame, FrameFault>
    requires { IsAnnounced bytes.now }
    // What is read is spelled so, and what is spelled so is read.
    ensures spelled { IfOk result (λ f. IsFrame f × (spelling f ≡ bytes.now)) }
    ensures read { (f : Frame) → IsFrame f → spelling f ≡ bytes.now → MatchResult result (λ g. g ≡ f) (λ e. e ≡ FrameFault.NoMemory) }
    // It stands whole at the front of the bytes; a fault is the fault there.
    ensures whole { IfOk result (λ f. front bytes.now ≡ Whole f (length bytes.now)) }
    ensures fault { IfErr result (λ e. e ≢ FrameFault.NoMemory → (e ≡ FrameFault.BadHeaders) × (front bytes.now ≡ Bad e)) }
    // Memory is wanted for a frame alone.
    ensures memory { IsErrOf result FrameFault.NoMemory → IsWholeFront bytes.now }
{
    let (first, _) = bytes.split_at(HEAD);
    let mut head = [0u8; HEAD];
    head.copy_from_slice(first);
    let head = read_head(&head)?;
    read_frame_with(alloc, head, bytes)
}

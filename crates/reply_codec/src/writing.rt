ghost use Rattle.std.specs.Prelude.{◌≡◌, ◌∷◌, [], ◌++◌, ◌≤◌, if◌then◌else◌, IfOk, OnOk, OnErr, true, length};
ghost use Rattle.channel_frame.specs.FrameSpelling.{number, spelling, KeepsLimits, longest_body};
ghost use Rattle.reply_codec.specs.ReplyBody.{reply_body};
ghost use Rattle.reply_codec.specs.ReplyFrame.{is_success, reply_frame};
ghost use Rattle.reply_codec.specs.ReplyLimits.{keeps_limits};

use crate::reply_bodies::put_reply;
use channel_frame::{Frame, Header, Headers, encode_behind};
use ctrl_model::{Bytes, Reply};
use json::Writer;
use std::alloc::{AllocError, Global};

/// The content type of a reply.
const RESULT: u32 = 2;

/// The key of the header with the request's sequence number.
const REPLY_FOR: u32 = 1;

/// The key of the header with the flag of success.
const SUCCESS: u32 = 2;

/// How much room the body of a reply gets at first, in bytes: most replies need no more.
const FIRST_ROOM: usize = 256;

fn body_bytes(alloc: Global, reply: &Reply) -> Result<Bytes, AllocError>
    requires { keeps_limits reply.now ≡ true }
    ensures value { IfOk result (λ b. b ≡ reply_body reply.now) }
    ensures few { IfOk result (λ b. length b ≤ longest_body) }
{
    let mut writer = Writer::new(Vec::with_capacity(alloc, FIRST_ROOM)?);
    put_reply(&mut writer, reply)?;
    Ok(Bytes::of(writer.into_inner()))
}

fn is_success(reply: &Reply) -> bool
    ensures { result ≡ is_success reply.now }
{
    !matches!(reply, Reply::Refused(_))
}

fn reply_headers(alloc: Global, request: u32, success: bool) -> Result<Headers, AllocError>
    ensures { IfOk result (λ h. h ≡ record { key = 1; value = number request } ∷ record { key = 2; value = (if success then 1 else 0) ∷ [] } ∷ []) }
{
    let sequence = Bytes::from_slice(alloc, &request.to_le_bytes())?;
    let flag = Bytes::from_slice(alloc, &[u8::from(success)])?;
    let mut items = Vec::new(alloc);
    items.push(Header {
        key: REPLY_FOR,
        value: sequence,
    })?;
    items.push(Header {
        key: SUCCESS,
        value: flag,
    })?;
    Ok(Headers::of(items))
}

/// The frame of a reply: with its sequence number in the session, and with the sequence number of the request that it answers.
///
/// It takes a reply whose lists keep the limits of what a controller can show: 512 names of services, 256 of routers, 255
/// links, 256 routers, and 256 entries of 256 values that are `u64::MAX` or below 2^32. Its parts then keep the limits of a
/// frame (docs/FORMATS.md, "Replies").
pub fn write(
    alloc: Global,
    reply: &Reply,
    sequence: u32,
    reply_for: u32,
) -> Result<Frame, AllocError>
    requires { keeps_limits reply.now ≡ true }
    ensures frame { IfOk result (λ f. f ≡ reply_frame sequence reply_for reply.now) }
    ensures limits { IfOk result (λ f. KeepsLimits f) }
{
    let body = body_bytes(alloc, reply)?;
    let headers = reply_headers(alloc, reply_for, is_success(reply))?;
    Ok(Frame {
        content: RESULT,
        sequence,
        headers,
        body,
    })
}

/// The frame of a reply comes, spelled, behind the bytes of a buffer.
///
/// It takes the replies that `write` takes. The text of the body is made once, and each byte of the frame is written once. Where memory is
/// wanting, the buffer is empty.
pub fn write_behind(
    out: &mut Vec<u8>,
    reply: &Reply,
    sequence: u32,
    reply_for: u32,
) -> Result<(), AllocError>
    requires { keeps_limits reply.now ≡ true }
    ensures ok { OnOk result (out.new.items ≡ out.old.items ++ spelling (reply_frame sequence reply_for reply.now)) }
    ensures err { OnErr result (out.new.items ≡ []) }
{
    match write(*out.allocator(), reply, sequence, reply_for) {
        Ok(frame) => encode_behind(out, &frame),
        Err(error) => {
            out.clear();
            Err(error)
        }
    }
}

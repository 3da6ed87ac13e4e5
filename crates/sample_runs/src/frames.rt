use std::alloc::{AllocError, Global};

/// The sequence number of each request.
pub const REQUEST: u32 = 7;

/// A frame that creates ann: content type 1000, sequence 7, no headers.
pub const ANN: &[u8] =
    b"\x03\x06\x09\x0c\xe8\x03\0\0\x07\0\0\0\0\0\0\0\x0e\0\0\0{\"name\":\"ann\"}";

/// Its reply as the first one: content type 2, reply for 7, success, the number 1.
pub const MADE: &[u8] =
    b"\x03\x06\x09\x0c\x02\0\0\0\0\0\0\0\x15\0\0\0\x08\0\0\0\x01\0\0\0\x04\0\0\0\x07\0\0\0\x02\0\0\0\x01\0\0\0\x01{\"no\":1}";

/// The reply to a second frame that creates ann, behind the first one: the name exists.
pub const EXISTS: &[u8] =
    b"\x03\x06\x09\x0c\x02\0\0\0\x01\0\0\0\x15\0\0\0\x1b\0\0\0\x01\0\0\0\x04\0\0\0\x07\0\0\0\x02\0\0\0\x01\0\0\0\0{\"code\":20,\"name\":\"Exists\"}";

fn push_number(bytes: &mut Vec<u8>, number: u32) -> Result<(), AllocError> {
    bytes.extend_from_slice(&number.to_le_bytes())
}

fn push_head(
    bytes: &mut Vec<u8>,
    content: u32,
    sequence: u32,
    headers_len: u32,
    body: &str,
) -> Result<(), AllocError> {
    bytes.extend_from_slice(b"\x03\x06\x09\x0c")?;
    push_number(bytes, content)?;
    push_number(bytes, sequence)?;
    push_number(bytes, headers_len)?;
    push_number(bytes, u32::try_from(body.len()).unwrap_or(u32::MAX))
}

/// Puts the frame of a request behind the others: sequence 7, no headers.
pub fn push_request(bytes: &mut Vec<u8>, content: u32, body: &str) -> Result<(), AllocError> {
    push_head(bytes, content, REQUEST, 0, body)?;
    bytes.extend_from_slice(body.as_bytes())
}

// Whether the body of a reply is that of a refusal, whose number comes first, or behind the place at which two batches differ.
fn is_refusal(body: &str) -> bool {
    body.starts_with("{\"code\"") || body.starts_with("{\"at\"")
}

/// The headers of a reply to such a request, up to whether it is no refusal.
const REPLY_HEADERS: &[u8] = b"\x01\0\0\0\x04\0\0\0\x07\0\0\0\x02\0\0\0\x01\0\0\0";

/// Puts the frame of a reply to such a request behind the others: with the request's number, and whether it is no refusal.
pub fn push_reply(bytes: &mut Vec<u8>, sequence: u32, body: &str) -> Result<(), AllocError> {
    push_head(bytes, 2, sequence, 21, body)?;
    bytes.extend_from_slice(REPLY_HEADERS)?;
    bytes.extend_from_slice(&[u8::from(!is_refusal(body))])?;
    bytes.extend_from_slice(body.as_bytes())
}

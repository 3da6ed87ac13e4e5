//! Frames that several tests read.

/// A frame of 34 bytes that makes the identity ann, with the sequence number 7.
pub(crate) const ANN: &[u8] =
    b"\x03\x06\x09\x0c\xe8\x03\0\0\x07\0\0\0\0\0\0\0\x0e\0\0\0{\"name\":\"ann\"}";

/// The reply to it, of 49 bytes.
pub(crate) const REPLY: &[u8] =
    b"\x03\x06\x09\x0c\x02\0\0\0\0\0\0\0\x15\0\0\0\x08\0\0\0\x01\0\0\0\x04\0\0\0\x07\0\0\0\x02\0\0\0\x01\0\0\0\x01{\"no\":1}";

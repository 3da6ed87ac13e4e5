use ctrl_model::{Bytes, Copies, Items};
use std::alloc::AllocError;
use thiserror::Error;

/// A header of a frame: a key and its bytes.
#[derive(Drop)]
pub struct Header {
    pub key: u32,
    pub value: Bytes,
}

impl Copies for Header {
    fn copy(&self) -> Result<Header, AllocError> {
        let value = self.value.copy()?;
        Ok(Header {
            key: self.key,
            value,
        })
    }
}

/// The headers of a frame.
pub type Headers = Items<Header>;

/// A channel frame: its content type, its sequence number, its headers and its body.
#[derive(Drop)]
pub struct Frame {
    pub content: u32,
    pub sequence: u32,
    pub headers: Headers,
    pub body: Bytes,
}

impl Copies for Frame {
    fn copy(&self) -> Result<Frame, AllocError> {
        let headers = self.headers.copy()?;
        let body = self.body.copy()?;
        Ok(Frame {
            content: self.content,
            sequence: self.sequence,
            headers,
            body,
        })
    }
}

/// A list of frames.
pub type Frames = Items<Frame>;

/// The marker with which each frame begins.
pub(crate) const MARKER: [u8; 4] = [3, 6, 9, 12];

/// How many bytes the head of a frame has.
pub(crate) const HEAD: usize = 20;

/// How many bytes the headers of a frame may have (docs/FORMATS.md, "Channel frame").
pub const LONGEST_HEADERS: u32 = 65_536;

/// How many bytes the body of a frame may have.
pub const LONGEST_BODY: u32 = 1_048_576;

/// What the first 20 bytes of a frame say: its content type, its sequence number and the lengths of its two parts.
#[derive(Clone, Copy, PartialEq, Eq)]
pub struct Head {
    pub content: u32,
    pub sequence: u32,
    /// At most 65,536.
    pub headers_len: u32,
    /// At most 1,048,576.
    pub body_len: u32,
}

/// Why bytes are no frame.
#[derive(Clone, Copy, Debug, PartialEq, Eq, Error)]
pub enum FrameFault {
    /// The first four bytes are not the marker.
    #[error("the bytes do not begin with the marker")]
    BadMarker,
    /// The headers part or the body is announced longer than its limit.
    #[error("a part of the frame is too long")]
    TooLong,
    /// The headers part is no row of headers that fills it.
    #[error("the headers do not fill their part")]
    BadHeaders,
    /// There is no memory for the frame.
    #[error("no memory")]
    NoMemory,
}

impl From<AllocError> for FrameFault {
    ghost use Rattle.std.specs.Prelude.{◌≡◌};
    ghost use Rattle.channel_frame.specs.declared.frames.FrameFault.TheVariants.{NoMemory};

    ghost from_gives = { λ _ e. e ≡ NoMemory };

    fn from(_error: AllocError) -> FrameFault {
        FrameFault::NoMemory
    }
}

/// What stands at the front of a session's bytes, in the words of the definitions.
#[derive(Drop)]
pub enum Front {
    /// An unfinished frame, or nothing.
    Short,
    /// No frame, whatever follows.
    Bad(FrameFault),
    /// A whole frame, and how many bytes it takes.
    Whole(Frame, u64),
}

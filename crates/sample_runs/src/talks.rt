//! Frames with their replies, laid out from rows of text.

use crate::frames::{push_reply, push_request};
use crate::networks::TEXTS;
use crate::repeating::{filled, range_of};
use std::alloc::{AllocError, Global};

/// Frames, and the replies that are wanted to them, which count from 0.
#[derive(Drop)]
pub struct Talk {
    alloc: Global,
    input: Vec<u8>,
    wanted: Vec<u8>,
    replies: u32,
}

// The text that has a name, or none.
fn text_of(name: &str) -> &'static str {
    for (known, text) in TEXTS {
        if *known == name {
            return text;
        }
    }
    ""
}

// The content type of a row, the body of its frame, and the body of the reply.
fn row_of(line: &str) -> Option<(u32, &str, &str)> {
    let (request, reply) = line.split_once(" -> ")?;
    let (content, body) = request.split_once(' ')?;
    Some((content.parse::<u32>().ok()?, body, reply))
}

impl Talk {
    /// The frames and replies of a text. Each line is a row, `CONTENT BODY -> REPLY`, or has the names of texts of rows, which stand in its place. Behind
    /// `each 1..41 ` it is repeated for the numbers from a first one to before a last one, each of which stands in it between two `$`, behind some steps,
    /// as `$%4 +9$`. Or it begins with `#` and is for the reader.
    pub fn of(alloc: Global, text: &str) -> Result<Talk, AllocError> {
        let mut talk = Talk {
            alloc,
            input: Vec::new(alloc),
            wanted: Vec::new(alloc),
            replies: 0,
        };
        talk.put_text(text)?;
        Ok(talk)
    }

    /// The bytes of the frames.
    pub fn input(&self) -> &[u8] {
        self.input.as_slice()
    }

    /// The bytes of the replies.
    pub fn wanted(&self) -> &[u8] {
        self.wanted.as_slice()
    }

    // Puts a frame behind the others, with the body of its reply.
    fn put(&mut self, content: u32, body: &str, reply: &str) -> Result<(), AllocError> {
        push_request(&mut self.input, content, body)?;
        push_reply(&mut self.wanted, self.replies, reply)?;
        self.replies = self.replies.wrapping_add(1);
        Ok(())
    }

    // Puts a row. What is no row becomes a frame that is answered otherwise, so that the run fails.
    fn put_row(&mut self, line: &str) -> Result<(), AllocError> {
        let (content, body, reply) = row_of(line).unwrap_or((u32::MAX, line, ""));
        self.put(content, body, reply)
    }

    // Puts the rows of a text without names.
    fn put_rows(&mut self, text: &str) -> Result<(), AllocError> {
        for line in text.lines() {
            if !line.is_empty() {
                self.put_row(line)?;
            }
        }
        Ok(())
    }

    // Puts the rows of the texts of some names.
    fn put_named(&mut self, names: &str) -> Result<(), AllocError> {
        for name in names.split_whitespace() {
            let text = text_of(name);
            self.put_rows(if text.is_empty() { name } else { text })?;
        }
        Ok(())
    }

    // Puts the row of a line, or those of the texts that it names.
    fn put_plain(&mut self, line: &str) -> Result<(), AllocError> {
        if line.contains(" -> ") {
            return self.put_row(line);
        }
        self.put_named(line)
    }

    // Puts a line for each of some numbers.
    fn put_each(&mut self, repeated: &str) -> Result<(), AllocError> {
        let (numbers, line) = repeated.split_once(' ').unwrap_or((repeated, ""));
        for number in range_of(numbers) {
            let line = filled(self.alloc, line, number)?;
            self.put_plain(line.as_str())?;
        }
        Ok(())
    }

    fn put_line(&mut self, line: &str) -> Result<(), AllocError> {
        if line.starts_with('#') {
            return Ok(());
        }
        match line.strip_prefix("each ") {
            Some(repeated) => self.put_each(repeated),
            None => self.put_plain(line),
        }
    }

    // Puts the rows of a text.
    fn put_text(&mut self, text: &str) -> Result<(), AllocError> {
        for line in text.lines() {
            self.put_line(line)?;
        }
        Ok(())
    }
}

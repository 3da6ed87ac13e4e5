ghost use Rattle.std.specs.Prelude.{◌≡◌, ◌+◌, ◌≤◌, length};
ghost use Rattle.frame_lines.specs.TextLines.{lines_of};
ghost use Rattle.answer_lines.specs.AnswerParts.{is_mark, behind_mark, number_behind};

use frame_lines::cut_line;

/// Whether a line stands between the requests and the replies.
pub(crate) fn is_mark(line: &[u8]) -> bool
    ensures { result ≡ is_mark line.now }
{
    line == b"---".as_slice()
}

/// The text behind the line that stands between the requests and the replies, and the number of its first line.
pub(crate) fn behind_mark(text: &[u8]) -> (&[u8], u64)
    ensures lines { lines_of result.0.now ≡ behind_mark (lines_of text.now) }
    ensures number { result.1 ≡ number_behind (lines_of text.now) }
    ensures few { result.1 + length result.0.now ≤ length text.now + 2 }
{
    let mut number = 2u64;
    let mut rest = text;
    'lines: while !rest.is_empty() {
        let (line, after) = cut_line(rest);
        if is_mark(line) {
            return (after, number);
        }
        number += 1;
        rest = after;
    }
    (rest, number)
}

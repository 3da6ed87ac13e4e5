ghost use Rattle.std.specs.Prelude.{◌≡◌, ◌<◌, ◌∷◌, length, MatchOption};
ghost use Rattle.frame_lines.specs.TextLines.{lines_of};
ghost use Rattle.frame_lines.specs.LineCuts.{Lacks, CutsAt, without_return};
ghost use Rattle.frame_lines.specs.LineWords.{first_word, behind_word};

// What stands before a byte and behind it, where the byte stands first.
fn cut_at(bytes: &[u8], wanted: u8) -> Option<(&[u8], &[u8])>
    ensures { MatchOption result (Lacks wanted bytes.now) (λ parts. CutsAt wanted bytes.now parts.0.now parts.1.now) }
{
    'bytes: for (place, byte) in bytes.iter().enumerate() {
        if *byte == wanted {
            let (before, rest) = bytes.split_at(place);
            let (_, behind) = rest.split_at(1);
            return Some((before, behind));
        }
    }
    None
}

fn without_return(line: &[u8]) -> &[u8]
    ensures { result.now ≡ without_return line.now }
{
    let len = line.len();
    if len > 0 && line[len - 1] == b'\r' {
        let (front, _) = line.split_at(len - 1);
        return front;
    }
    line
}

/// The first line of a text that is not empty, and the text behind it.
pub fn cut_line(text: &[u8]) -> (&[u8], &[u8])
    requires { 0 < length text.now }
    ensures lines { lines_of text.now ≡ result.0.now ∷ lines_of result.1.now }
    ensures shorter { length result.1.now < length text.now }
{
    match cut_at(text, b'\n') {
        Some((line, rest)) => (without_return(line), rest),
        None => text.split_at(text.len()),
    }
}

/// The first word of a line, and what stands behind it and one space.
pub fn cut_word(line: &[u8]) -> (&[u8], &[u8])
    ensures word { result.0.now ≡ first_word line.now }
    ensures behind { result.1.now ≡ behind_word line.now }
{
    match cut_at(line, b' ') {
        Some(parts) => parts,
        None => line.split_at(line.len()),
    }
}

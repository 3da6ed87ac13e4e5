ghost use Rattle.std.specs.Prelude.{◌≡◌, ◌^◌};
ghost use Rattle.ctrl_serve.specs.CommandLine.{form_of, is_padded, number_below, texts};

use ctrl_model::Name;

/// What a line of words runs.
#[derive(Clone, Copy, PartialEq, Eq)]
pub enum Form {
    /// Plain input, without a folder.
    Dry,
    /// An input, on the folder: plain input, or a trace of many sessions.
    Replay(session_mux::Form),
    /// A look at the folder, which is left alone.
    Audit,
    /// The compaction of the folder.
    Compact,
    /// The generated load of this number, without a folder.
    Load(u32),
    /// The advice on an identity and a service, by the folder, which is left alone. Their names are the second and the third word.
    Advise,
    /// The shipping of the folder from this serial on. It is left alone.
    Ship(u64),
    /// Plain input of frames that were shipped, into the folder, which is the copy of another.
    Follow,
}

// Whether a text begins with a plus, or with a zero before another byte.
fn is_padded(text: &[u8]) -> bool
    ensures { result ≡ is_padded text.now }
{
    matches!(text, [b'+', ..] | [b'0', _, ..])
}

// The number whose decimal text the word is, if it is below 2^64.
fn number_of_word(word: &str) -> Option<u64>
    ensures { result ≡ number_below (2 ^ 64) word.now }
{
    if is_padded(word.as_bytes()) {
        return None;
    }
    word.parse::<u64>().ok()
}

// The number whose decimal text the word is, if it is below 2^32.
fn small_number_of_word(word: &str) -> Option<u32>
    ensures { result ≡ number_below (2 ^ 32) word.now }
{
    let number = number_of_word(word)?;
    u32::try_from(number).ok()
}

/// What the words run, if they are a line of the table of words: `dry`, `replay`, `replay --sessions`, `audit`, `compact`, `follow`, `load N`, `ship N`
/// and `advise I S`, of which the last two are names.
pub fn form_of(words: &[String]) -> Option<Form>
    ensures { result ≡ form_of (texts words.now) }
{
    match words {
        [word] if word.as_bytes() == b"dry".as_slice() => Some(Form::Dry),
        [word] if word.as_bytes() == b"replay".as_slice() => {
            Some(Form::Replay(session_mux::Form::Plain))
        }
        [word] if word.as_bytes() == b"audit".as_slice() => Some(Form::Audit),
        [word] if word.as_bytes() == b"compact".as_slice() => Some(Form::Compact),
        [word] if word.as_bytes() == b"follow".as_slice() => Some(Form::Follow),
        [word, number] if word.as_bytes() == b"load".as_slice() => {
            match small_number_of_word(number.as_str()) {
                Some(number) => Some(Form::Load(number)),
                None => None,
            }
        }
        [word, number] if word.as_bytes() == b"ship".as_slice() => {
            match number_of_word(number.as_str()) {
                Some(number) => Some(Form::Ship(number)),
                None => None,
            }
        }
        [word, next]
            if word.as_bytes() == b"replay".as_slice()
                && next.as_bytes() == b"--sessions".as_slice() => {
            Some(Form::Replay(session_mux::Form::Trace))
        }
        [word, identity, service]
            if word.as_bytes() == b"advise".as_slice()
                && Name::is(identity.as_bytes())
                && Name::is(service.as_bytes()) => Some(Form::Advise),
        _ => None,
    }
}

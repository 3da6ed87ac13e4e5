ghost use Rattle.std.specs.Prelude.{◌≡◌, map};
ghost use Rattle.std.specs.String.{string_bytes};
ghost use Rattle.zitilook.specs.Words.{asked_alone, asked_of, asked_pair, asked_triple, asked_who, asked_why, is_diff, is_plan, kind_of, listing, other_place, showing, word_at};

use ctrl_model::{Kind, Name};
use record_lines::Listed;

/// What the program is asked for.
#[derive(Clone, Copy, PartialEq, Eq)]
pub enum Asked {
    /// The lines of the records of a kind, or of the intercepts.
    List(Listed),
    /// The line of one record or intercept, which the third word names.
    Show(Listed),
    /// Why an identity can or cannot reach a service, which the second and the third word name.
    Why,
    /// Who is granted Dial on a service, which the second word names.
    Who,
    /// The lines of the commands that make the like of the state.
    Dump,
    /// The picture of the network.
    Picture,
    /// That picture with the way of the circuit marked whose number the second word is.
    PictureOf,
    /// What is wrong with the folder, and the way back.
    Doctor,
    /// The lines of a kind that there is not. The second word is the one that names no kind.
    Unknown,
    /// The findings on a record that nothing can name: the word at this place is no name.
    Misnamed(Place),
    /// A page about the program itself. No folder is read.
    Tell(Page),
}

/// The place of a word behind the program's name.
#[derive(Clone, Copy, PartialEq, Eq)]
pub enum Place {
    Second,
    Third,
}

/// A page about the program.
#[derive(Clone, Copy, PartialEq, Eq)]
pub enum Page {
    /// A line for each word.
    Help,
    /// The version of the lines.
    Version,
}

// What a word names that is listed: the records of one of the nine kinds, or the intercepts.
fn kind_of(word: &[u8]) -> Option<Listed>
    ensures { result ≡ kind_of word.now }
{
    match word {
        _ if word == b"identities".as_slice() => Some(Listed::Records(Kind::Identity)),
        _ if word == b"services".as_slice() => Some(Listed::Records(Kind::Service)),
        _ if word == b"routers".as_slice() => Some(Listed::Records(Kind::Router)),
        _ if word == b"links".as_slice() => Some(Listed::Records(Kind::Link)),
        _ if word == b"service-policies".as_slice() => Some(Listed::Records(Kind::ServicePolicy)),
        _ if word == b"edge-router-policies".as_slice() => Some(Listed::Records(
            Kind::EdgeRouterPolicy,
        )),
        _ if word == b"service-edge-router-policies".as_slice() => Some(Listed::Records(
            Kind::ServiceEdgeRouterPolicy,
        )),
        _ if word == b"terminators".as_slice() => Some(Listed::Records(Kind::Terminator)),
        _ if word == b"circuits".as_slice() => Some(Listed::Records(Kind::Circuit)),
        _ if word == b"intercepts".as_slice() => Some(Listed::Intercepts),
        _ => None,
    }
}

// What is asked for with what is listed, if there is such.
fn listing(listed: Option<Listed>) -> Asked
    ensures { result ≡ listing listed }
{
    match listed {
        Some(listed) => Asked::List(listed),
        None => Asked::Unknown,
    }
}

// What is asked for with the name of one of what is listed, if there is such.
fn showing(listed: Option<Listed>) -> Asked
    ensures { result ≡ showing listed }
{
    match listed {
        Some(listed) => Asked::Show(listed),
        None => Asked::Unknown,
    }
}

// What is asked for with the name of a service, if the word is a name.
fn asked_who(service: &str) -> Asked
    ensures { result ≡ asked_who service.now }
{
    if Name::is(service.as_bytes()) {
        Asked::Who
    } else {
        Asked::Misnamed(Place::Second)
    }
}

// What is asked for with the names of an identity and of a service, if the words are names.
fn asked_why(identity: &str, service: &str) -> Asked
    ensures { result ≡ asked_why identity.now service.now }
{
    if !Name::is(identity.as_bytes()) {
        Asked::Misnamed(Place::Second)
    } else if !Name::is(service.as_bytes()) {
        Asked::Misnamed(Place::Third)
    } else {
        Asked::Why
    }
}

// What one word asks for: `dump`, `picture`, `doctor`, `help` or `version`.
fn asked_alone(word: &str) -> Option<Asked>
    ensures { result ≡ asked_alone word.now }
{
    match word.as_bytes() {
        name if name == b"dump".as_slice() => Some(Asked::Dump),
        name if name == b"picture".as_slice() => Some(Asked::Picture),
        name if name == b"doctor".as_slice() => Some(Asked::Doctor),
        name if name == b"help".as_slice() => Some(Asked::Tell(Page::Help)),
        name if name == b"version".as_slice() => Some(Asked::Tell(Page::Version)),
        _ => None,
    }
}

// What two words ask for: `list KIND`, `who SERVICE` or `picture CIRCUIT`.
fn asked_pair(word: &str, next: &str) -> Option<Asked>
    ensures { result ≡ asked_pair word.now next.now }
{
    match word.as_bytes() {
        name if name == b"list".as_slice() => Some(listing(kind_of(next.as_bytes()))),
        name if name == b"who".as_slice() => Some(asked_who(next)),
        name if name == b"picture".as_slice() => Some(Asked::PictureOf),
        _ => None,
    }
}

// What three words ask for: `show KIND NAME` or `why IDENTITY SERVICE`.
fn asked_triple(word: &str, next: &str, third: &str) -> Option<Asked>
    ensures { result ≡ asked_triple word.now next.now third.now }
{
    match word.as_bytes() {
        name if name == b"show".as_slice() => Some(showing(kind_of(next.as_bytes()))),
        name if name == b"why".as_slice() => Some(asked_why(next, third)),
        _ => None,
    }
}

/// What the words ask for, if they are a line of the table of words: `list KIND`, `show KIND NAME`, `why IDENTITY SERVICE`,
/// `who SERVICE`, `dump`, `picture`, `picture CIRCUIT`, `doctor`, `help` or `version`.
pub fn asked_of(words: &[String]) -> Option<Asked>
    ensures { result ≡ asked_of (map string_bytes words.now) }
{
    match words {
        [word] => asked_alone(word.as_str()),
        [word, next] => asked_pair(word.as_str(), next.as_str()),
        [word, next, third] => asked_triple(word.as_str(), next.as_str(), third.as_str()),
        _ => None,
    }
}

/// The word at a place; none where there is none.
pub fn word_at(place: Place, words: &[String]) -> &str
    ensures { result.now ≡ word_at place (map string_bytes words.now) }
{
    match (place, words) {
        (Place::Second, [_, word, ..]) => word.as_str(),
        (Place::Third, [_, _, word, ..]) => word.as_str(),
        _ => "",
    }
}

/// Whether the words ask for the changes between two folders: `diff` and the place of the other one.
pub fn is_diff(words: &[String]) -> bool
    ensures { result ≡ is_diff (map string_bytes words.now) }
{
    match words {
        [word, _] => word.as_str().as_bytes() == b"diff".as_slice(),
        _ => false,
    }
}

/// Whether the words ask what the commands of the input would change: `plan` alone.
pub fn is_plan(words: &[String]) -> bool
    ensures { result ≡ is_plan (map string_bytes words.now) }
{
    match words {
        [word] => word.as_str().as_bytes() == b"plan".as_slice(),
        _ => false,
    }
}

/// The place of the other folder, among all words that the system gave: the one behind `diff`, and else the working folder.
pub fn other_place(words: &[String]) -> &str
    ensures { result.now ≡ other_place (map string_bytes words.now) }
{
    match words {
        [_, word, place] if word.as_str().as_bytes() == b"diff".as_slice() => place.as_str(),
        _ => ".",
    }
}

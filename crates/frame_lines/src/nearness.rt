ghost use Rattle.std.specs.Prelude.{◌≡◌, map};
ghost use Rattle.std.specs.Option.{option_map};
ghost use Rattle.frame_lines.specs.NearNames.{is_near, near_among, near_name};

use crate::types::types;

// Whether a word is the name but for one byte at most.
fn is_near(name: &[u8], word: &[u8]) -> bool
    ensures { result ≡ is_near name.now word.now }
{
    let [b, name_behind @ ..] = name else {
        return word.len() < 2;
    };
    let [c, word_behind @ ..] = word else {
        return name_behind.is_empty();
    };
    if *b == *c {
        return is_near(name_behind, word_behind);
    }
    if name_behind == word_behind {
        return true;
    }
    if name_behind == word {
        return true;
    }
    name == word_behind
}

fn near_among(rows: &[(u32, &'static str)], word: &[u8]) -> Option<&'static str>
    ensures { option_map (λ name. name.now) result ≡ near_among (map (λ row. (row.0, row.1.now)) rows.now) word.now }
{
    'rows: for (_, name) in rows {
        if is_near(name.as_bytes(), word) {
            return Some(name);
        }
    }
    None
}

/// The first name of a content type that a word is near to, if it is near to one.
#[tactic(auto, unfolding(crate::specs::NearNames::near_name))]
pub(crate) fn near_name(word: &[u8]) -> Option<&'static str>
    ensures { option_map (λ name. name.now) result ≡ near_name word.now }
{
    near_among(types(), word)
}

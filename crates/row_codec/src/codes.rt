ghost use Rattle.std.specs.Prelude.{◌≡◌};
ghost use Rattle.std.specs.Option.{option_map};
ghost use Rattle.row_codec.specs.FieldReading.{front_code, front_flag, relation_meant, semantic_meant, precedence_meant, marks_meant};

use crate::fields::split_byte;
use ctrl_model::{Precedence, Relation, Semantic};

/// A truth value, and what follows it.
pub fn split_flag(bytes: &[u8]) -> Option<(bool, &[u8])>
    ensures { option_map (λ p. (p.0, p.1.now)) result ≡ front_flag bytes.now }
{
    let (byte, rest) = split_byte(bytes)?;
    match byte {
        0 => Some((false, rest)),
        1 => Some((true, rest)),
        _ => None,
    }
}

/// The relation of a service policy, and what follows it.
pub fn split_relation(bytes: &[u8]) -> Option<(Relation, &[u8])>
    ensures { option_map (λ p. (p.0, p.1.now)) result ≡ front_code relation_meant bytes.now }
{
    let (byte, rest) = split_byte(bytes)?;
    match byte {
        1 => Some((Relation::Dial, rest)),
        2 => Some((Relation::Bind, rest)),
        _ => None,
    }
}

/// A semantic, and what follows it.
pub fn split_semantic(bytes: &[u8]) -> Option<(Semantic, &[u8])>
    ensures { option_map (λ p. (p.0, p.1.now)) result ≡ front_code semantic_meant bytes.now }
{
    let (byte, rest) = split_byte(bytes)?;
    match byte {
        1 => Some((Semantic::AnyOf, rest)),
        2 => Some((Semantic::AllOf, rest)),
        _ => None,
    }
}

/// A precedence, and what follows it.
pub fn split_precedence(bytes: &[u8]) -> Option<(Precedence, &[u8])>
    ensures { option_map (λ p. (p.0, p.1.now)) result ≡ front_code precedence_meant bytes.now }
{
    let (byte, rest) = split_byte(bytes)?;
    match byte {
        1 => Some((Precedence::Required, rest)),
        2 => Some((Precedence::Normal, rest)),
        3 => Some((Precedence::Failed, rest)),
        _ => None,
    }
}

/// Whether a path may pass through a router and whether it is connected, and what follows these marks.
pub fn split_marks(bytes: &[u8]) -> Option<((bool, bool), &[u8])>
    ensures { option_map (λ p. (p.0, p.1.now)) result ≡ front_code marks_meant bytes.now }
{
    let (byte, rest) = split_byte(bytes)?;
    match byte {
        0 => Some(((true, false), rest)),
        1 => Some(((false, false), rest)),
        2 => Some(((true, true), rest)),
        3 => Some(((false, true), rest)),
        _ => None,
    }
}

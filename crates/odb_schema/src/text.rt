//! Texts in schemas: ids, names, versions and atomic types (RFC 7047, section 3.1 and 3.2). [P 1.1, 16]

ghost use Rattle.std.specs.Prelude.{◌≡◌, ◌&&◌, ◌||◌, ◌==◌, length, nat_lt};
ghost use Rattle.std.specs.List.{list_all, slice_split};
ghost use Rattle.odb_atoms.specs.Represented.Atom.{kind_in};
ghost use Rattle.odb_atoms.specs.Text as model_text;
ghost use Rattle.odb_schema.specs.SchemaText as model;
ghost use Rattle.odb_schema.specs.Represented.Fault.{Gives};

use crate::fault::SchemaFault;
use odb_atoms::Kind;

/// Returns whether the text is an id (RFC 7047, section 3.1, `<id>`): a letter or `_`, then letters, digits
/// and `_`. O(n).
pub fn is_id(text: &str) -> bool
    ensures { result ≡ model_text.is_id text.now }
{
    match text.as_bytes() {
        [] => false,
        [first, rest @ ..] => is_letter(*first) && are_letters_and_digits(rest),
    }
}

fn are_letters_and_digits(bytes: &[u8]) -> bool
    ensures { result
        ≡ list_all (λ c. model_text.is_letter c || model_text.is_digit c) bytes.now }
{
    bytes.iter().all(|byte| is_letter(*byte) || is_digit(*byte))
}

fn is_letter(byte: u8) -> bool
    ensures { result ≡ model_text.is_letter byte }
{
    (b'A' <= byte && byte <= b'Z') || (b'a' <= byte && byte <= b'z') || byte == b'_'
}

fn is_digit(byte: u8) -> bool
    ensures { result ≡ model_text.is_digit byte }
{
    b'0' <= byte && byte <= b'9'
}

/// Returns whether the text is a name of a database, a table or a column (RFC 7047, section 3.2): an id
/// that does not begin with `_`. O(n).
pub fn is_name(text: &str) -> bool
    ensures { result ≡ model.is_name text.now }
{
    is_id(text) && text.as_bytes()[0] != b'_'
}

/// Returns whether the text is three decimal numbers joined by dots (RFC 7047, section 3.1, `<version>`).
/// O(n).
pub(crate) fn is_version(text: &str) -> bool
    ensures { result ≡ model.is_version text.now }
{
    let bytes = text.as_bytes();
    count_of_parts(bytes) == 3 && are_decimal_parts(bytes)
}

/// Returns how many parts there are between dots.
fn count_of_parts(bytes: &[u8]) -> usize
    ensures { result ≡ length (slice_split (λ c. c == 46) bytes.now) }
{
    bytes.split(|byte| *byte == b'.').count()
}

/// Returns whether each part between dots is a decimal number.
fn are_decimal_parts(bytes: &[u8]) -> bool
    ensures { result
        ≡ list_all (λ part. nat_lt 0 (length part) && list_all model_text.is_digit part)
        (slice_split (λ c. c == 46) bytes.now) }
{
    bytes
        .split(|byte| *byte == b'.')
        .all(|part| is_decimal(part))
}

/// Returns whether it is one or more digits.
fn is_decimal(part: &[u8]) -> bool
    ensures { result ≡ (nat_lt 0 (length part.now) && list_all model_text.is_digit part.now) }
{
    !part.is_empty() && are_digits(part)
}

fn are_digits(bytes: &[u8]) -> bool
    ensures { result ≡ list_all model_text.is_digit bytes.now }
{
    bytes.iter().all(|byte| is_digit(*byte))
}

/// Reads the atomic type with the name (RFC 7047, section 3.2, `<atomic-type>`).
pub(crate) fn read_kind(name: &str) -> Result<Kind, SchemaFault>
    ensures { Gives kind_in result (model.read_kind name.now) }
{
    match name {
        "integer" => Ok(Kind::Integer),
        "boolean" => Ok(Kind::Boolean),
        "string" => Ok(Kind::Text),
        "uuid" => Ok(Kind::Uuid),
        _ => Err(SchemaFault::BadType),
    }
}

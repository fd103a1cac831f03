//! The notation of atoms and values (RFC 7047, section 5.1, `<atom>`, `<set>`, `<map>`), as far as
//! schemas and operations share it: what stands after a tag, identifiers and strings; and the
//! writing of values. [P 2.2, 2.5]

ghost use Rattle.std.specs.Prelude.{◌≡◌, ◌==◌, ◌∷◌, [], IfOk, map, ok_or, option_map};
ghost use Rattle.std.specs.List.{list_any};
ghost use Rattle.serde_json.specs.View.{view};
ghost use Rattle.odb_atoms.specs.Error.{syntax_error};
ghost use Rattle.odb_atoms.specs.Represented.Atom.{atom_of, uuid_of};
ghost use Rattle.odb_atoms.specs.Represented.Value.{pair_of};
ghost use Rattle.odb_atoms.specs.Uuid.{uuid_of_text};
ghost use Rattle.odb_schema.specs.Json.{array_of, string};
ghost use Rattle.odb_schema.specs.Notation as notation;

use odb_atoms::{Atom, Entries};
use odb_chunks::Items;
use serde_json::Value;
use std::alloc::{AllocError, Global};
use uuid::Uuid;

/// Returns what stands in `[tag, content]`, the form of `["set", ..]`, `["map", ..]`, `["uuid", ..]` and
/// `["named-uuid", ..]`. O(the tag's length).
pub fn tagged<'a>(tag: &str, value: &'a Value) -> Option<&'a Value>
    ensures { option_map (λ content. view content.now) result
        ≡ notation.tagged tag.now (view value.now) }
{
    match value.as_array()?.as_slice() {
        [first, content] => {
            if first.as_str() == Some(tag) {
                Some(content)
            } else {
                None
            }
        }
        _ => None,
    }
}

/// Reads the UUID that a text of 36 characters is: 8-4-4-4-12 hexadecimal digits of either case (RFC
/// 7047, section 5.1, `<uuid>`). O(1).
pub fn parse_uuid(text: &str) -> Option<Uuid>
    ensures { option_map uuid_of result ≡ uuid_of_text text.now }
{
    if text.len() != 36 {
        return None;
    }
    Uuid::parse_str(text).ok()
}

/// Returns a JSON string without U+0000 (RFC 7047, section 3.1, `<string>`), and nothing for any other
/// JSON. O(the string's length).
pub fn text_in(value: &Value) -> Option<&str>
    ensures { ok_or (option_map (λ text. text.now) result) syntax_error
        ≡ notation.read_string (view value.now) }
{
    match value.as_str() {
        Some(text) if !has_nul(text.as_bytes()) => Some(text),
        _ => None,
    }
}

fn has_nul(bytes: &[u8]) -> bool
    ensures { result ≡ list_any (λ c. c == 0) bytes.now }
{
    bytes.iter().any(|byte| *byte == 0)
}
/// Writes `[tag, content]`.
fn write_tagged(alloc: Global, tag: &str, content: Value) -> Result<Value, AllocError>
    ensures { IfOk result (λ v. view v ≡ array_of (string tag.now ∷ view content ∷ [])) }
{
    let mut items = Vec::with_capacity(alloc, 2)?;
    items.push(Value::try_from_str(alloc, tag)?)?;
    items.push(content)?;
    Ok(Value::from(items))
}

/// Writes `["uuid", text]`, with the digits in lower case (RFC 7047, section 5.1, `<uuid>`). O(1).
pub fn write_uuid(alloc: Global, uuid: Uuid) -> Result<Value, AllocError>
    ensures { IfOk result (λ v. view v ≡ notation.write_uuid (uuid_of uuid)) }
{
    let mut buffer = [0; 36];
    // By its number, since that is what contracts say of an identifier.
    let by_number = Uuid::from_u128(uuid.as_u128());
    let text = by_number.hyphenated().encode_lower(&mut buffer);
    let content = Value::try_from_str(alloc, text)?;
    write_tagged(alloc, "uuid", content)
}

/// Writes an atom.
fn write_atom(alloc: Global, atom: &Atom) -> Result<Value, AllocError>
    ensures { IfOk result (λ v. view v ≡ notation.write_atom (atom_of atom.now)) }
{
    match atom {
        Atom::Integer(integer) => Ok(Value::from(*integer)),
        Atom::Boolean(boolean) => Ok(Value::from(*boolean)),
        Atom::Text(text) => Value::try_from_str(alloc, text.as_str()),
        Atom::SharedText(text) => Value::try_from_str(alloc, text.as_str()),
        Atom::Uuid(uuid) => write_uuid(alloc, *uuid),
    }
}

fn write_all(alloc: Global, atoms: &Items<'_, Atom>) -> Result<Vec<Value>, AllocError>
    ensures { IfOk result (λ v. map view v.items ≡ map notation.write_atom (map atom_of atoms.now)) }
{
    let mut items = Vec::with_capacity(alloc, atoms.len())?;
    for atom in atoms.iter() {
        items.push(write_atom(alloc, atom)?)?;
    }
    Ok(items)
}

/// Writes the set of the atoms, of which one stands alone.
fn write_atoms(alloc: Global, atoms: &Items<'_, Atom>) -> Result<Value, AllocError>
    ensures { IfOk result (λ v. view v ≡ notation.write_atoms (map atom_of atoms.now)) }
{
    match atoms.lone() {
        Some(atom) => write_atom(alloc, atom),
        None => write_tagged(alloc, "set", Value::from(write_all(alloc, atoms)?)),
    }
}

fn write_pair(alloc: Global, pair: &(Atom, Atom)) -> Result<Value, AllocError>
    ensures { IfOk result (λ v. view v ≡ notation.write_pair (pair_of pair.now)) }
{
    let mut items = Vec::with_capacity(alloc, 2)?;
    items.push(write_atom(alloc, &pair.0)?)?;
    items.push(write_atom(alloc, &pair.1)?)?;
    Ok(Value::from(items))
}

fn write_pairs(alloc: Global, pairs: &Items<'_, (Atom, Atom)>) -> Result<Vec<Value>, AllocError>
    ensures { IfOk result (λ v. map view v.items ≡ map notation.write_pair (map pair_of pairs.now)) }
{
    let mut items = Vec::with_capacity(alloc, pairs.len())?;
    for pair in pairs.iter() {
        items.push(write_pair(alloc, pair)?)?;
    }
    Ok(items)
}

/// Writes the notation of a value, with elements and keys ascending: a set of exactly one element as the
/// atom, any other as `["set", [atom, ..]]`, and a map as `["map", [[key, value], ..]]` (RFC 7047,
/// section 5.1). O(the bytes written).
pub fn write_value(alloc: Global, value: &odb_atoms::Value) -> Result<Value, AllocError>
    ensures { IfOk result (λ v. view v ≡ notation.write_value value.now) }
{
    match value.entries() {
        Entries::Set(atoms) => write_atoms(alloc, &atoms),
        Entries::Map(pairs) => write_tagged(alloc, "map", Value::from(write_pairs(alloc, &pairs)?)),
    }
}

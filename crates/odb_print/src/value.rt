//! Atoms and values, printed (RFC 7047, section 5.1, `<atom>` and `<value>`).
ghost use Rattle.std.specs.Prelude.{◌≡◌, ◌++◌, ◌∷◌, [], OnOk, codes, flat_map, map};
ghost use Rattle.json.specs.Token as token;
ghost use Rattle.odb_atoms.specs.Represented.Atom.{atom_of, uuid_of};
ghost use Rattle.odb_atoms.specs.Represented.Value.{pair_of};
ghost use Rattle.odb_atoms.specs.Uuid.{uuid_text};
ghost use Rattle.odb_print.specs.Tokens.{tokens_of};
ghost use Rattle.odb_schema.specs.Json.{array_of, string};
ghost use Rattle.odb_schema.specs.Notation as notation;

use crate::printer::Printer;
use json::Token;
use odb_atoms::{Atom, Entries, Value};
use odb_chunks::Items;
use std::alloc::AllocError;
use uuid::Uuid;

/// Prints an identifier's text as a key.
pub fn put_key(out: &mut Printer, uuid: Uuid) -> Result<(), AllocError>
    ensures { OnOk result (out.new ≡ out.old ++ token.key (uuid_text (uuid_of uuid)) ∷ []) }
{
    let mut buffer = [0; 36];
    // By its number, since that is what contracts say of an identifier.
    let by_number = Uuid::from_u128(uuid.as_u128());
    let text = by_number.hyphenated().encode_lower(&mut buffer);
    out.put(Token::Key(text))
}

/// Prints an identifier's text as a string.
#[inline(always)]
fn put_text(out: &mut Printer, uuid: Uuid) -> Result<(), AllocError>
    ensures { OnOk result (out.new ≡ out.old ++ token.string (uuid_text (uuid_of uuid)) ∷ []) }
{
    let mut buffer = [0; 36];
    let by_number = Uuid::from_u128(uuid.as_u128());
    let text = by_number.hyphenated().encode_lower(&mut buffer);
    out.put(Token::String(text))
}

/// Prints `["uuid", text]`.
#[inline(always)]
fn put_uuid(out: &mut Printer, uuid: Uuid) -> Result<(), AllocError>
    ensures { OnOk result (out.new ≡ out.old ++ tokens_of (notation.write_uuid (uuid_of uuid))) }
{
    out.put(Token::BeginArray)?;
    out.put(Token::String("uuid"))?;
    put_text(out, uuid)?;
    out.put(Token::EndArray)
}

/// Prints an atom.
#[inline(always)]
#[tactic(auto, using(crate::proofs::Tokens::integer_tokens))]
fn put_atom(out: &mut Printer, atom: &Atom) -> Result<(), AllocError>
    ensures { OnOk result (out.new ≡ out.old ++ tokens_of (notation.write_atom (atom_of atom.now))) }
{
    match atom {
        Atom::Integer(integer) => out.integer(*integer),
        Atom::Boolean(boolean) => out.put(Token::Bool(*boolean)),
        Atom::Text(text) => out.put(Token::String(text.as_str())),
        Atom::SharedText(text) => out.put(Token::String(text.as_str())),
        Atom::Uuid(uuid) => put_uuid(out, *uuid),
    }
}

/// Atoms, one after the other.
fn put_atoms(out: &mut Printer, atoms: &Items<'_, Atom>) -> Result<(), AllocError>
    ensures { OnOk result (out.new
        ≡ out.old ++ flat_map (λ a. tokens_of (notation.write_atom a)) (map atom_of atoms.now)) }
{
    for atom in atoms.iter() {
        put_atom(out, atom)?;
    }
    Ok(())
}

/// Prints `["tag", [`: an array of the tag and of another array, whose items come next.
fn begin_tagged(out: &mut Printer, tag: &str) -> Result<(), AllocError>
    ensures { OnOk result (out.new
        ≡ out.old ++ token.begin_array ∷ token.string tag.now ∷ token.begin_array ∷ []) }
{
    out.put(Token::BeginArray)?;
    out.put(Token::String(tag))?;
    out.put(Token::BeginArray)
}

/// Prints `]]`.
fn end_tagged(out: &mut Printer) -> Result<(), AllocError>
    ensures { OnOk result (out.new ≡ out.old ++ token.end_array ∷ token.end_array ∷ []) }
{
    out.put(Token::EndArray)?;
    out.put(Token::EndArray)
}

/// Prints `["set", [atom, ..]]`.
fn put_set_of(out: &mut Printer, atoms: &Items<'_, Atom>) -> Result<(), AllocError>
    ensures { OnOk result (out.new ≡ out.old ++ tokens_of
        (array_of (string (codes "set") ∷ array_of (map notation.write_atom (map atom_of atoms.now)) ∷ []))) }
{
    begin_tagged(out, "set")?;
    put_atoms(out, atoms)?;
    end_tagged(out)
}

/// Prints a set, of which one atom stands alone.
#[inline(always)]
fn put_set(out: &mut Printer, atoms: &Items<'_, Atom>) -> Result<(), AllocError>
    ensures { OnOk result (out.new
        ≡ out.old ++ tokens_of (notation.write_atoms (map atom_of atoms.now))) }
{
    match atoms.lone() {
        Some(atom) => put_atom(out, atom),
        None => put_set_of(out, atoms),
    }
}

/// Prints `[key, value]`.
fn put_pair(out: &mut Printer, pair: &(Atom, Atom)) -> Result<(), AllocError>
    ensures { OnOk result (out.new ≡ out.old ++ tokens_of (notation.write_pair (pair_of pair.now))) }
{
    out.put(Token::BeginArray)?;
    put_atom(out, &pair.0)?;
    put_atom(out, &pair.1)?;
    out.put(Token::EndArray)
}

/// Pairs, one after the other.
fn put_pairs(out: &mut Printer, pairs: &Items<'_, (Atom, Atom)>) -> Result<(), AllocError>
    ensures { OnOk result (out.new
        ≡ out.old ++ flat_map (λ e. tokens_of (notation.write_pair e)) (map pair_of pairs.now)) }
{
    for pair in pairs.iter() {
        put_pair(out, pair)?;
    }
    Ok(())
}

/// Prints `["map", [pair, ..]]`.
fn put_map(out: &mut Printer, pairs: &Items<'_, (Atom, Atom)>) -> Result<(), AllocError>
    ensures { OnOk result (out.new ≡ out.old ++ tokens_of
        (array_of (string (codes "map") ∷ array_of (map notation.write_pair (map pair_of pairs.now)) ∷ []))) }
{
    begin_tagged(out, "map")?;
    put_pairs(out, pairs)?;
    end_tagged(out)
}

/// Prints a value (RFC 7047, section 5.1), its elements and keys ascending. O(its bytes).
#[inline(always)]
pub fn put_value(out: &mut Printer, value: &Value) -> Result<(), AllocError>
    ensures { OnOk result (out.new ≡ out.old ++ tokens_of (notation.write_value value.now)) }
{
    match value.entries() {
        Entries::Set(atoms) => put_set(out, &atoms),
        Entries::Map(pairs) => put_map(out, &pairs),
    }
}

/// Prints a member of a row: a column's name and its value. O(its bytes).
#[inline(always)]
pub fn put_member(out: &mut Printer, name: &str, value: &Value) -> Result<(), AllocError>
    ensures { OnOk result (out.new ≡ out.old ++ token.key name.now ∷ tokens_of (notation.write_value value.now)) }
{
    out.put(Token::Key(name))?;
    put_value(out, value)
}

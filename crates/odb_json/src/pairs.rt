//! Maps (RFC 7047, section 5.1, `<map>`). [P 2.3]

ghost use Rattle.std.specs.Prelude.{◌≡◌, ◌++◌, map, option_map, IfOk};
ghost use Rattle.serde_json.specs.View.{items_view, view};
ghost use Rattle.odb_atoms.specs.FinMap as finite;
ghost use Rattle.odb_atoms.specs.Represented.Atom.{atom_of, kind_in};
ghost use Rattle.odb_atoms.specs.Represented.Error.{error_of};
ghost use Rattle.odb_atoms.specs.Represented.Value.{pair_of};
ghost use Rattle.odb_schema.specs.Notation as notation;
ghost use Rattle.odb_json.specs.Represented.Fault.{Reads};
ghost use Rattle.odb_json.specs.Represented.Parts as parts;
ghost use Rattle.odb_json.specs.Represented.Parts.{map_value};

use crate::atom::{SYNTAX, read_atom};
use crate::fault::OpFault;
use crate::names::Names;
use odb_atoms::{Atom, Error, Kind};
use odb_schema::tagged;
use serde_json::Value;
use std::alloc::{AllocError, Global};

/// The kinds of a map's keys and values.
#[derive(Clone, Copy)]
pub struct Kinds {
    pub key: Kind,
    pub value: Kind,
}

/// The pairs in front of the first fault, and that fault.
#[derive(Drop)]
struct FrontPairs {
    pairs: Vec<(Atom, Atom)>,
    fault: Option<Error>,
}

/// Returns the two members of `[key, value]`.
fn two_of(item: &Value) -> Option<(&Value, &Value)>
    ensures { option_map (λ pair. (view pair.0.now, view pair.1.now)) result
        ≡ notation.pair_of (view item.now) }
{
    match item.as_array()?.as_slice() {
        [key, value] => Some((key, value)),
        _ => None,
    }
}

/// What a map is read by.
#[derive(Clone, Copy)]
pub struct PairReader<'a> {
    pub alloc: Global,
    pub kinds: Kinds,
    pub names: Option<&'a Names>,
}

impl PairReader<'_> {
    /// Reads the value of a key and adds the pair to those in front. If the value has a fault, the key
    /// stands with another value, so that it is seen if it stands twice: that is the earlier fault.
    fn append_value(
        self,
        key: Atom,
        value: &Value,
        pairs: &mut Vec<(Atom, Atom)>,
    ) -> Result<Option<Error>, AllocError>
        ensures pairs { IfOk result (λ _. map pair_of pairs.new.items
            ≡ map pair_of pairs.old.items
            ++ (parts.pair_with (atom_of key) (kind_in self.entry.kinds.value) (notation.read_atom
            (option_map (λ n. n.now) self.entry.names) (kind_in self.entry.kinds.value) (view value.now))).0) }
        ensures fault { IfOk result (λ fault. option_map error_of fault
            ≡ (parts.pair_with (atom_of key) (kind_in self.entry.kinds.value) (notation.read_atom
            (option_map (λ n. n.now) self.entry.names) (kind_in self.entry.kinds.value) (view value.now))).1) }
    {
        match read_atom(self.alloc, self.kinds.value, value, self.names) {
            Ok(atom) => {
                pairs.push((key, atom))?;
                Ok(None)
            }
            Err(OpFault::Failed(error)) => {
                pairs.push((key, Atom::zero(self.alloc, self.kinds.value)))?;
                Ok(Some(error))
            }
            Err(OpFault::Memory) => Err(AllocError),
        }
    }

    /// Reads a pair and adds it to those in front, or says what its fault is.
    fn append(
        self,
        item: &Value,
        pairs: &mut Vec<(Atom, Atom)>,
    ) -> Result<Option<Error>, AllocError>
        ensures pairs { IfOk result (λ _. map pair_of pairs.new.items
            ≡ map pair_of pairs.old.items
            ++ (parts.pair_front (option_map (λ n. n.now) self.entry.names) (kind_in self.entry.kinds.key)
            (kind_in self.entry.kinds.value) (view item.now)).0) }
        ensures fault { IfOk result (λ fault. option_map error_of fault
            ≡ (parts.pair_front (option_map (λ n. n.now) self.entry.names) (kind_in self.entry.kinds.key)
            (kind_in self.entry.kinds.value) (view item.now)).1) }
    {
        let Some((key, value)) = two_of(item) else {
            return Ok(Some(Error::SyntaxError));
        };
        match read_atom(self.alloc, self.kinds.key, key, self.names) {
            Ok(key) => self.append_value(key, value, pairs),
            Err(OpFault::Failed(error)) => Ok(Some(error)),
            Err(OpFault::Memory) => Err(AllocError),
        }
    }

    /// Reads the pairs in front of the first fault.
    fn read_front(self, items: &[Value]) -> Result<FrontPairs, AllocError>
        ensures pairs { IfOk result (λ front. map pair_of front.pairs.items
            ≡ (parts.pairs_front (option_map (λ n. n.now) self.entry.names) (kind_in self.entry.kinds.key)
            (kind_in self.entry.kinds.value) (items_view items.now)).0) }
        ensures fault { IfOk result (λ front. option_map error_of front.fault
            ≡ (parts.pairs_front (option_map (λ n. n.now) self.entry.names) (kind_in self.entry.kinds.key)
            (kind_in self.entry.kinds.value) (items_view items.now)).1) }
    {
        let mut pairs = Vec::with_capacity(self.alloc, items.len())?;
        for item in items {
            let fault = self.append(item, &mut pairs)?;
            if fault.is_some() {
                return Ok(FrontPairs { pairs, fault });
            }
        }
        Ok(FrontPairs { pairs, fault: None })
    }

    /// Reads the map of an array's pairs, of which no two may have the same key.
    fn read_pairs(self, items: &[Value]) -> Result<odb_atoms::Value, OpFault>
        ensures { Reads (λ v. v) result (map_value (notation.read_pairs
            (option_map (λ n. n.now) self.entry.names) (kind_in self.entry.kinds.key) (kind_in self.entry.kinds.value)
            finite.empty (items_view items.now))) }
    {
        let front = self.read_front(items)?;
        let Ok(map) = odb_atoms::Value::map(front.pairs) else {
            return Err(SYNTAX);
        };
        match front.fault {
            None => Ok(map),
            Some(error) => Err(OpFault::Failed(error)),
        }
    }

    /// Reads a map. O(n log n) comparisons for n pairs.
    pub fn read_map(self, value: &Value) -> Result<odb_atoms::Value, OpFault>
        ensures { Reads (λ v. v) result (map_value (notation.read_map
            (option_map (λ n. n.now) self.entry.names) (kind_in self.entry.kinds.key) (kind_in self.entry.kinds.value)
            (view value.now))) }
    {
        let Some(content) = tagged("map", value) else {
            return Err(SYNTAX);
        };
        match content.as_array() {
            None => Err(SYNTAX),
            Some(items) => self.read_pairs(items.as_slice()),
        }
    }
}

//! The names that a transaction gives to the rows that it inserts (RFC 7047, section 5.2.1).

ghost use Rattle.std.specs.Prelude.{◌≡◌, string_bytes, option_map, IfOk, IfErr, OnOk, OnErr};
ghost use Rattle.odb_atoms.specs.FinMap as finite;
ghost use Rattle.odb_atoms.specs.Represented.Atom.{uuid_of};

use std::alloc::{AllocFailed, Global};
use std::collections::BTreeMap;
use std::marker::Model;
use uuid::Uuid;

/// The UUIDs that the `uuid-name`s of a transaction stand for (RFC 7047, section 5.2.1).
#[derive(Drop)]
pub struct Names {
    names: BTreeMap<String, Uuid>,
}

impl Model for Names {
    ghost use Rattle.std.specs.Coded.{coded_list, coded_ℕ};
    ghost use Rattle.odb_atoms.specs.FinMap as finite;
    ghost use Rattle.odb_atoms.specs.Uuid.{uuid_code};
    ghost use Rattle.odb_schema.specs.Notation as notation;
    ghost use Rattle.odb_json.specs.Represented.Names.{names_in};

    ghost Value = { notation.Names };

    ghost coded = { finite.code (coded_list coded_ℕ) uuid_code };

    ghost view = { λ a. names_in a.names };
}

impl Names {
    /// Makes names, of which there are none. O(1).
    pub fn new(alloc: Global) -> Names
        ensures { result ≡ finite.empty }
    {
        Names {
            names: BTreeMap::new(alloc),
        }
    }

    /// Returns the UUID that the name stands for, if it stands for one. O(log n) for n names.
    pub fn get(&self, name: &str) -> Option<Uuid>
        ensures { option_map uuid_of result ≡ finite.get self.now name.now }
    {
        self.names.get(name).copied()
    }

    /// Lets the name stand for the UUID. If it stood for another, it no longer does, and that one is
    /// handed back. O(log n) for n names.
    ///
    /// Where memory is refused the names are as they were, and both are handed back.
    pub fn insert(
        &mut self,
        name: String,
        uuid: Uuid,
    ) -> Result<Option<Uuid>, AllocFailed<(String, Uuid)>>
        ensures ok { OnOk result (self.new
            ≡ finite.insert self.old (string_bytes name) (uuid_of uuid)) }
        ensures before { IfOk result (λ before. option_map uuid_of before
            ≡ finite.get self.old (string_bytes name)) }
        ensures err { OnErr result (self.new ≡ self.old) }
        ensures handed_back { IfErr result (λ refused. refused.value ≡ (name, uuid)) }
    {
        self.names.insert(name, uuid)
    }
}

//! Identifiers as the keys of tables.
ghost use Rattle.std.specs.Prelude.{◌≡◌, false, true, refl, Some};
ghost use Rattle.std.specs.Hash.{u128};
ghost use Rattle.std.specs.Ordering.{eq_by_cmp, is_le, is_lt};
ghost use Rattle.odb_atoms.specs.Represented.Atom.{uuid_of};
ghost use Rattle.odb_atoms.specs.Uuid as model_uuid;
ghost use Rattle.odb_atoms.specs.Uuid.{uuid_cmp, uuid_from};
ghost use Rattle.odb_tables.specs.Represented.Key.{keys_alike, keys_equivalent, keys_partial, keys_partially_equivalent, uuid_cmp_total};

use odb_atoms::number_of;
use std::cmp::Ordering;
use std::hash::{Hash, Hasher};
use std::marker::Model;
use uuid::Uuid;

/// An identifier as the key of a table: the number that it is (RFC 7047, section 5.1, `<uuid>`). Keys are
/// equal, ordered and hashed as their numbers are.
#[derive(Clone, Copy)]
pub struct Key {
    number: u128,
}

impl Model for Key {
    ghost use Rattle.std.specs.Prelude.{◌^◌, nat_lt, T};
    ghost use Rattle.odb_atoms.specs.Uuid.{Uuid, uuid_code, uuid_from};
    ghost use Rattle.odb_tables.specs.Represented.Key.{number-uuid_from};

    ghost Value = { Uuid };

    ghost coded = { uuid_code };

    ghost view = { λ k. uuid_from k.number };

    ghost invariant = { λ k. T (nat_lt k.number (2 ^ 128)) };

    ghost inverse = { λ u. record { number = u.number } };

    ghost inverse_ok = { λ k h. λ i. record { number = number-uuid_from k.number h i } };
}

impl Key {
    /// Returns the identifier as a key. O(1).
    #[inline(always)]
    pub fn of(uuid: Uuid) -> Key
        ensures { result ≡ uuid_of uuid }
    {
        Key {
            number: number_of(uuid),
        }
    }

    /// Returns the identifier. O(1).
    pub fn uuid(self) -> Uuid
        ensures { uuid_of result ≡ self }
    {
        Uuid::from_u128(self.number)
    }

    /// Returns the least key. O(1).
    pub(crate) fn least() -> Key
        ensures { (u : model_uuid.Uuid) → is_le (uuid_cmp result u) ≡ true }
    {
        Key { number: 0 }
    }

    /// Returns the greatest key. O(1).
    pub(crate) fn greatest() -> Key
        ensures { (u : model_uuid.Uuid) → is_lt (uuid_cmp result u) ≡ false }
    {
        Key { number: u128::MAX }
    }

    /// Returns the key of a hash. O(1).
    pub(crate) fn of_hash(hash: u64) -> Key
        ensures { result ≡ uuid_from hash }
    {
        Key {
            number: u128::from(hash),
        }
    }
}

impl PartialEq for Key {
    ghost eq = { eq_by_cmp uuid_cmp };

    ghost laws = { keys_partially_equivalent };

    fn eq(&self, other: &Key) -> bool {
        self.number == other.number
    }
}

impl Eq for Key {
    ghost laws = { keys_equivalent };
}

impl Ord for Key {
    ghost cmp = { uuid_cmp };

    ghost total = { uuid_cmp_total };

    ghost matches_partial_cmp = { λ _ _. refl };

    ghost matches_eq = { λ _ _. refl };

    fn cmp(&self, other: &Key) -> Ordering {
        self.number.cmp(&other.number)
    }
}

impl PartialOrd for Key {
    ghost partial_cmp = { λ u v. Some (uuid_cmp u v) };

    ghost laws = { keys_partial };

    fn partial_cmp(&self, other: &Key) -> Option<Ordering> {
        Some(self.cmp(other))
    }
}

impl Hash for Key {
    ghost hash_input = { λ u. u128 u.number };

    ghost respects_eq = { keys_alike.fed };

    fn hash<H: Hasher>(&self, state: &mut H) {
        self.number.hash(state);
    }
}

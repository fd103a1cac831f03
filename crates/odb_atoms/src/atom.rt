//! Atoms, the scalars of RFC 7047 (section 5.1, `<atom>`), and their kinds. [P 2.1]

ghost use Rattle.std.specs.Prelude.{◌≡◌, refl, IfOk, Some};
ghost use Rattle.odb_atoms.specs.Atom.{kind_of, atom_cmp, same_atom, zero_atom};
ghost use Rattle.odb_atoms.specs.ColType.{is_a};
ghost use Rattle.odb_atoms.specs.Represented.Atom.{atom_of, kind_in, uuid_of};
ghost use Rattle.odb_atoms.specs.Uuid.{uuid_cmp};
ghost use Rattle.std.specs.Int.{from_be_bytes, w128};
ghost use Rattle.odb_atoms.specs.Represented.AtomOrder.{atoms_equivalent, atoms_partial};
ghost use Rattle.odb_atoms.specs.Represented.AtomOrder.{atoms_partially_equivalent, atoms_total};

use std::alloc::{AllocError, Global};
use std::cmp::Ordering;
use std::sync::ArcStr;
use uuid::Uuid;

/// A scalar (RFC 7047, section 5.1, `<atom>`), of one of the kinds that this server has: all of the
/// RFC but reals.
///
/// Atoms are ordered by kind, in the order of the variants; integers by size, `false` before
/// `true`, texts by their bytes and identifiers as numbers of 128 bits. Two atoms are equal where
/// neither is before the other.
pub enum Atom {
    /// An integer from -2^63 to 2^63 - 1.
    Integer(i64),
    /// A boolean.
    Boolean(bool),
    /// A string.
    Text(String),
    /// A string that copies of the atom share.
    SharedText(ArcStr),
    /// An identifier of 128 bits.
    Uuid(Uuid),
}

/// An atomic type (RFC 7047, section 3.2, `<atomic-type>`).
#[derive(Clone, Copy, PartialEq, Eq, PartialOrd, Ord)]
pub enum Kind {
    /// `integer`.
    Integer,
    /// `boolean`.
    Boolean,
    /// `string`.
    Text,
    /// `uuid`.
    Uuid,
}

impl Atom {
    /// Returns what a column of the kind has by default (RFC 7047, section 5.2.1): 0, `false`, the empty
    /// string or the zero UUID. O(1); it takes no memory, but an empty string keeps the allocator.
    pub fn zero(alloc: Global, kind: Kind) -> Atom
        ensures { atom_of result ≡ zero_atom (kind_in kind) }
    {
        match kind {
            Kind::Integer => Atom::Integer(0),
            Kind::Boolean => Atom::Boolean(false),
            Kind::Text => Atom::Text(String::new(alloc)),
            Kind::Uuid => Atom::Uuid(Uuid::nil()),
        }
    }

    /// Returns the atomic type that the atom is of.
    #[inline(always)]
    pub fn kind(&self) -> Kind
        ensures { kind_in result ≡ kind_of (atom_of self.now) }
    {
        match self {
            Atom::Integer(_) => Kind::Integer,
            Atom::Boolean(_) => Kind::Boolean,
            Atom::Text(_) => Kind::Text,
            Atom::SharedText(_) => Kind::Text,
            Atom::Uuid(_) => Kind::Uuid,
        }
    }

    /// Returns whether the atom is of the kind.
    #[inline(always)]
    pub fn is_a(&self, kind: Kind) -> bool
        ensures { result ≡ is_a (kind_in kind) (atom_of self.now) }
    {
        self.kind() == kind
    }

    /// Makes an equal atom. Only a text takes memory, O(its length).
    pub fn try_copy(&self, alloc: Global) -> Result<Atom, AllocError>
        ensures { IfOk result (λ copy. atom_of copy ≡ atom_of self.now) }
    {
        Ok(match self {
            Atom::Integer(integer) => Atom::Integer(*integer),
            Atom::Boolean(boolean) => Atom::Boolean(*boolean),
            Atom::Text(text) => Atom::Text(String::from_str(alloc, text.as_str())?),
            Atom::SharedText(text) => Atom::SharedText(text.clone()?),
            Atom::Uuid(uuid) => Atom::Uuid(*uuid),
        })
    }

    /// Makes an equal atom, whose text is shared with copies of it. A text takes memory, O(its length), unless it is
    /// shared already.
    #[inline(always)]
    pub fn shared_copy(&self, alloc: Global) -> Result<Atom, AllocError>
        ensures { IfOk result (λ copy. atom_of copy ≡ atom_of self.now) }
    {
        Ok(match self {
            Atom::Integer(integer) => Atom::Integer(*integer),
            Atom::Boolean(boolean) => Atom::Boolean(*boolean),
            Atom::Text(text) => Atom::SharedText(ArcStr::from_str(alloc, text.as_str())?),
            Atom::SharedText(text) => Atom::SharedText(text.clone()?),
            Atom::Uuid(uuid) => Atom::Uuid(*uuid),
        })
    }
}

impl Ord for Atom {
    ghost cmp = { λ a b. atom_cmp (atom_of a) (atom_of b) };

    ghost total = { atoms_total };

    ghost matches_partial_cmp = { λ _ _. refl };

    ghost matches_eq = { λ _ _. refl };

    #[inline(always)]
    fn cmp(&self, other: &Atom) -> Ordering {
        match (self, other) {
            (Atom::Integer(x), Atom::Integer(y)) => x.cmp(y),
            (Atom::Boolean(x), Atom::Boolean(y)) => x.cmp(y),
            (Atom::Text(x), Atom::Text(y)) => x.as_str().cmp(y.as_str()),
            (Atom::SharedText(x), Atom::SharedText(y)) => x.as_str().cmp(y.as_str()),
            (Atom::SharedText(x), Atom::Text(y)) => x.as_str().cmp(y.as_str()),
            (Atom::Text(x), Atom::SharedText(y)) => x.as_str().cmp(y.as_str()),
            (Atom::Uuid(x), Atom::Uuid(y)) => cmp_uuids(*x, *y),
            _ => self.kind().cmp(&other.kind()),
        }
    }
}

/// Compares the identifiers as numbers.
#[inline(always)]
fn cmp_uuids(x: Uuid, y: Uuid) -> Ordering
    ensures { result ≡ uuid_cmp (uuid_of x) (uuid_of y) }
{
    number_of(x).cmp(&number_of(y))
}

/// Returns the identifier as a number, the highest byte first (RFC 4122, section 4.1.2). It is read as two words, where
/// `Uuid::as_u128` reads it byte by byte: most of what a commit compares are identifiers. O(1).
#[inline(always)]
pub fn number_of(uuid: Uuid) -> u128
    ensures { result ≡ from_be_bytes w128 uuid }
{
    let b = uuid.into_bytes();
    let high = u64::from_be_bytes([b[0], b[1], b[2], b[3], b[4], b[5], b[6], b[7]]);
    let low = u64::from_be_bytes([b[8], b[9], b[10], b[11], b[12], b[13], b[14], b[15]]);
    u128::from(high) * 0x1_0000_0000_0000_0000 + u128::from(low)
}

impl PartialOrd for Atom {
    ghost partial_cmp = { λ a b. Some (atom_cmp (atom_of a) (atom_of b)) };

    ghost laws = { atoms_partial };

    fn partial_cmp(&self, other: &Atom) -> Option<Ordering> {
        Some(self.cmp(other))
    }
}

impl PartialEq for Atom {
    ghost eq = { λ a b. same_atom (atom_of a) (atom_of b) };

    ghost laws = { atoms_partially_equivalent };

    #[inline(always)]
    fn eq(&self, other: &Atom) -> bool {
        match (self, other) {
            (Atom::Integer(x), Atom::Integer(y)) => *x == *y,
            (Atom::Uuid(x), Atom::Uuid(y)) => number_of(*x) == number_of(*y),
            (Atom::Text(x), Atom::Text(y)) => x.as_str() == y.as_str(),
            (Atom::SharedText(x), Atom::SharedText(y)) => x.as_str() == y.as_str(),
            _ => self.cmp(other) == Ordering::Equal,
        }
    }
}

impl Eq for Atom {
    ghost laws = { atoms_equivalent };
}

// Written, and not derived, so that each end of a scope is one call to prove.
impl Drop for Atom {
    #[inline(always)]
    fn drop(self) {
        match self {
            Atom::Integer(_) => {}
            Atom::Boolean(_) => {}
            Atom::Text(_) => {}
            Atom::SharedText(_) => {}
            Atom::Uuid(_) => {}
        }
    }
}

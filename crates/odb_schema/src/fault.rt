//! Why a text is no schema. [P 1.4]

ghost use Rattle.std.specs.Prelude.{◌≡◌};
ghost use Rattle.odb_schema.specs.Represented.Fault.{number_of};

use std::alloc::{AllocError, AllocFailed};
use thiserror::Error;

/// Why a text is no schema (RFC 7047, section 3.2): the first fault in the order of the tests.
#[derive(Clone, Copy, Debug, Error)]
pub enum SchemaFault {
    /// Memory was refused.
    #[error("out of memory")]
    Memory,
    /// Not readable, a member absent, a wrong JSON kind, or a wrong `version`.
    #[error("not the syntax of a schema")]
    Syntax,
    /// What names the database, a table or a column is not a name.
    #[error("not a name")]
    BadId,
    /// A number or a text of the right JSON kind that is not allowed where it stands.
    #[error("not a type")]
    BadType,
    /// `refTable` names no table of the schema.
    #[error("refTable names no table")]
    UnknownRefTable,
    /// An index is empty, repeats a column, or names an unknown or ephemeral one.
    #[error("not an index")]
    BadIndex,
    /// More bytes, tables or columns than a schema may have.
    #[error("too large")]
    TooLarge,
}

impl SchemaFault {
    /// Returns its number, by which it is reported: 1 to 7, in the order of the variants.
    pub fn number(self) -> u8
        ensures { result ≡ number_of self }
    {
        match self {
            SchemaFault::Memory => 1,
            SchemaFault::Syntax => 2,
            SchemaFault::BadId => 3,
            SchemaFault::BadType => 4,
            SchemaFault::UnknownRefTable => 5,
            SchemaFault::BadIndex => 6,
            SchemaFault::TooLarge => 7,
        }
    }
}

impl From<AllocError> for SchemaFault {
    ghost use Rattle.std.specs.Prelude.{◌≡◌};
    ghost use Rattle.odb_schema.specs.declared.fault.SchemaFault.TheVariants.{Memory};

    ghost from_gives = { λ _ e. e ≡ Memory };

    fn from(_refused: AllocError) -> SchemaFault {
        SchemaFault::Memory
    }
}

impl<T: Drop> From<AllocFailed<T>> for SchemaFault {
    ghost use Rattle.std.specs.Prelude.{◌≡◌};
    ghost use Rattle.odb_schema.specs.declared.fault.SchemaFault.TheVariants.{Memory};

    ghost from_gives = { λ _ e. e ≡ Memory };

    fn from(_refused: AllocFailed<T>) -> SchemaFault {
        SchemaFault::Memory
    }
}

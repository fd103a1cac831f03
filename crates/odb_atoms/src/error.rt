//! The errors of operations and of commits (RFC 7047, sections 3.1 and 5.2). [P 8.3]

ghost use Rattle.std.specs.Prelude.{◌≡◌};
ghost use Rattle.odb_atoms.specs.Error.{error_name};
ghost use Rattle.odb_atoms.specs.Represented.Error.{error_of};

use std::fmt;

/// Why an operation or a commit fails (RFC 7047, section 3.1, `<error>`).
#[derive(Clone, Copy, Debug)]
pub enum Error {
    SyntaxError,
    UnknownOperation,
    UnknownTable,
    UnknownColumn,
    UnknownUuidName,
    DuplicateUuidName,
    DuplicateUuid,
    ConstraintViolation,
    DomainError,
    RangeError,
    ResourcesExhausted,
    TimedOut,
    NotSupported,
    Aborted,
    NotOwner,
    ReferentialIntegrityViolation,
}

impl Error {
    /// Returns its name, as it is printed. O(1).
    pub fn name(self) -> &'static str
        ensures { result.now ≡ error_name (error_of self) }
    {
        match self {
            Error::SyntaxError => "syntax error",
            Error::UnknownOperation => "unknown operation",
            Error::UnknownTable => "unknown table",
            Error::UnknownColumn => "unknown column",
            Error::UnknownUuidName => "unknown uuid-name",
            Error::DuplicateUuidName => "duplicate uuid-name",
            Error::DuplicateUuid => "duplicate uuid",
            Error::ConstraintViolation => "constraint violation",
            Error::DomainError => "domain error",
            Error::RangeError => "range error",
            Error::ResourcesExhausted => "resources exhausted",
            Error::TimedOut => "timed out",
            Error::NotSupported => "not supported",
            Error::Aborted => "aborted",
            Error::NotOwner => "not owner",
            Error::ReferentialIntegrityViolation => "referential integrity violation",
        }
    }
}

impl fmt::Display for Error {
    fn fmt<W: fmt::Write>(&self, f: &mut fmt::Formatter<W>) -> fmt::Result {
        f.write_str(self.name())
    }
}

impl std::error::Error for Error {}

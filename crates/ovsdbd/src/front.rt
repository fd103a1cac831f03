//! What the threads that serve connections share where a server has more than one database. [P 15.3, 15.4]

use crate::connection::RandomIdentifiers;
use crate::fault::ProgramFault;
use crate::server_database::{NAME, ServerBegun, printed_schema};
use odb_front::{Answers, Databases, Ids, PrintedSchema};
use odb_schema::Schema;
use odb_script::RunFault;
use rand::make_rng;
use serde_json::{Value, json};
use std::alloc::{AllocError, Global};
use std::random::RandomSource;
use uuid::Uuid;

/// The schemas of the databases that are served.
#[derive(Drop)]
pub(crate) struct Schemas {
    pub(crate) first: Schema,
    pub(crate) second: Option<Schema>,
}

impl Schemas {
    /// Makes equal ones.
    pub(crate) fn try_copy(&self, alloc: Global) -> Result<Schemas, AllocError> {
        let second = match &self.second {
            Some(second) => Some(second.try_copy(alloc)?),
            None => None,
        };
        Ok(Schemas {
            first: self.first.try_copy(alloc)?,
            second,
        })
    }
}

/// By what it is found where a message of a connection goes, what no database answers, and what each thread's `_Server` is made
/// of, where that is asked for.
pub(crate) struct FrontEnd {
    pub(crate) databases: Databases,
    pub(crate) answers: Answers,
    /// The ids of a connection that has named nothing.
    pub(crate) nothing: Ids,
    pub(crate) server: Option<ServerBegun>,
}

impl FrontEnd {
    /// Makes that of a server of these schemas, and of `_Server` if it has that.
    pub(crate) fn new<R: RandomSource>(
        rt: &R,
        alloc: Global,
        schemas: &Schemas,
        has_server: bool,
    ) -> Result<FrontEnd, ProgramFault> {
        let mut identifiers = RandomIdentifiers {
            rng: make_rng(rt).map_err(|_| memory())?,
        };
        let printed = printed_schemas(alloc, schemas, has_server)?;
        let server = server_of(rt, alloc, printed.as_slice(), has_server, &mut identifiers)?;
        let id = Uuid::new_v4(&mut identifiers.rng);
        Ok(FrontEnd {
            databases: databases_of(alloc, schemas, has_server)?,
            answers: Answers {
                names: names_of(alloc, printed.as_slice())?,
                schemas: printed,
                server_id: identifier(alloc, id)?.to_vec(alloc)?,
            },
            nothing: Ids::new(alloc),
            server,
        })
    }
}

// Written, and not derived, so that each end of a scope is one call to prove.
impl Drop for FrontEnd {
    fn drop(self) {
        let FrontEnd {
            databases: _,
            answers: _,
            nothing: _,
            server: _,
        } = self;
    }
}

fn server_of<R: RandomSource>(
    rt: &R,
    alloc: Global,
    schemas: &[PrintedSchema],
    has_server: bool,
    identifiers: &mut RandomIdentifiers,
) -> Result<Option<ServerBegun>, ProgramFault> {
    if !has_server {
        return Ok(None);
    }
    Ok(Some(ServerBegun::new(rt, alloc, schemas, identifiers)?))
}

fn databases_of(
    alloc: Global,
    schemas: &Schemas,
    has_server: bool,
) -> Result<Databases, AllocError> {
    let first = String::from_str(alloc, schemas.first.name())?;
    let second = match &schemas.second {
        Some(second) => Some(String::from_str(alloc, second.name())?),
        None => None,
    };
    Ok(Databases::new(first, second, has_server))
}

/// Prints the schemas of all databases, in the order in which they are told.
fn printed_schemas(
    alloc: Global,
    schemas: &Schemas,
    has_server: bool,
) -> Result<Vec<PrintedSchema>, AllocError> {
    let mut printed = Vec::with_capacity(alloc, 3)?;
    printed.push(printed_of(alloc, &schemas.first)?)?;
    if let Some(second) = &schemas.second {
        printed.push(printed_of(alloc, second)?)?;
    }
    if has_server {
        let name = String::from_str(alloc, NAME)?;
        printed.push(PrintedSchema::new(name, printed_schema(alloc)?))?;
    }
    Ok(printed)
}

fn printed_of(alloc: Global, schema: &Schema) -> Result<PrintedSchema, AllocError> {
    let name = String::from_str(alloc, schema.name())?;
    Ok(PrintedSchema::new(name, schema.to_json(alloc)?))
}

/// Returns the array of the databases' names, as JSON.
fn names_of(alloc: Global, schemas: &[PrintedSchema]) -> Result<Vec<u8>, AllocError> {
    let mut names = Vec::with_capacity(alloc, schemas.len())?;
    for schema in schemas {
        let name = schema.name();
        names.push(json!(in alloc; name)?)?;
    }
    Value::from(names).to_vec(alloc)
}

/// Returns an identifier as JSON.
pub(crate) fn identifier(alloc: Global, id: Uuid) -> Result<Value, AllocError> {
    let mut buffer = [0; 36];
    let text = id.hyphenated().encode_lower(&mut buffer);
    json!(in alloc; text)
}

fn memory() -> ProgramFault {
    ProgramFault::Run(RunFault::Memory)
}

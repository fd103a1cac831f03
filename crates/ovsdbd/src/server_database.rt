//! The database `_Server`, in which a server says what it serves (ovsdb-server(5)). [P 15.3]

use crate::connection::RandomIdentifiers;
use crate::fault::ProgramFault;
use odb_core::{Core, EventRefusal, Out, SessionId};
use odb_front::{PrintedSchema, after_write, has_writes, names_database, params_for, with_refusal};
use odb_hub::{Submission, submission_of};
use odb_rpc::operations;
use odb_schema::Schema;
use odb_script::RunFault;
use odb_wire::{Framer, Message, Request};
use rand::rngs::StdRng;
use rand_core::{Rng, SeedableRng};
use serde_json::{Value, json};
use std::alloc::{AllocError, Global};
use std::collections::VecDeque;
use std::hash::RandomState;
use std::mem;
use std::random::RandomSource;

/// Its name.
pub(crate) const NAME: &str = "_Server";

/// The name of its schema here: one in a file may not begin with `_`, which is for servers alone.
const OWN: &str = "Server";

/// Its schema, as ovsdb-server has it.
const SCHEMA: &[u8] =
    b"{\"name\":\"Server\",\"version\":\"1.2.0\",\"cksum\":\"3009684573 744\",\"tables\":{\"Database\":{\"columns\":{\
\"name\":{\"type\":\"string\"},\"model\":{\"type\":{\"key\":{\"type\":\"string\",\"enum\":[\"set\",[\"standalone\",\"clustered\",\"relay\"]]}}},\
\"connected\":{\"type\":\"boolean\"},\"leader\":{\"type\":\"boolean\"},\"schema\":{\"type\":{\"key\":{\"type\":\"string\"},\"min\":0,\"max\":1}},\
\"cid\":{\"type\":{\"key\":{\"type\":\"uuid\"},\"min\":0,\"max\":1}},\"sid\":{\"type\":{\"key\":{\"type\":\"uuid\"},\"min\":0,\"max\":1}},\
\"index\":{\"type\":{\"key\":{\"type\":\"integer\"},\"min\":0,\"max\":1}}},\"isRoot\":true}}}";

/// How its printed schema begins, up to the name.
const SCHEMA_BEGIN: &[u8] = b"{\"cksum\":\"3009684573 744\",\"name\":\"";

/// How the reply to what fills it begins.
const FILLED: &[u8] = b"{\"error\":null,\"id\":0,\"result\":[{\"uuid\":";

/// Of how many of its commits the contents can be found: of the one that fills it.
const KEPT: usize = 1;

/// What the `_Server` of each thread that serves connections is made of.
pub(crate) struct ServerBegun {
    alloc: Global,
    hashing: RandomState,
    run: u64,
    /// The request that inserts the row of each database.
    filling: Vec<u8>,
    /// By what the identifiers of these rows are drawn.
    seed: u64,
}

impl ServerBegun {
    /// Makes that of a server of the databases of these schemas, once it is seen that one can be made of it.
    pub(crate) fn new<R: RandomSource>(
        rt: &R,
        alloc: Global,
        schemas: &[PrintedSchema],
        identifiers: &mut RandomIdentifiers,
    ) -> Result<ServerBegun, ProgramFault> {
        let hashing = RandomState::new(rt).map_err(|_| memory())?;
        let filling = filling_request(alloc, schemas)?;
        let begun = ServerBegun {
            alloc,
            hashing,
            run: identifiers.rng.next_u64(),
            filling,
            seed: identifiers.rng.next_u64(),
        };
        drop(begun.start()?);
        Ok(begun)
    }

    /// Makes the database of a thread, which has the same rows, identifiers and versions as that of each other.
    pub(crate) fn start(&self) -> Result<ServerDatabase, AllocError> {
        let schema = own_schema(self.alloc)?;
        let Ok(mut core) = Core::with_run(self.alloc, schema, self.hashing, self.run, KEPT) else {
            return Err(AllocError);
        };
        self.fill(&mut core)?;
        Ok(ServerDatabase { core })
    }

    /// Inserts the row of each database, by a session that ends then.
    fn fill(&self, core: &mut Core) -> Result<(), AllocError> {
        let mut identifiers = RandomIdentifiers {
            rng: StdRng::seed_from_u64(self.seed),
        };
        let request = request_of(self.alloc, self.filling.as_slice())?;
        let Submission { request, fresh } = submission_of(self.alloc, request, &mut identifiers)?;
        let Ok(session) = core.open() else {
            return Err(AllocError);
        };
        if core.submit(session, request, fresh.as_slice(), 0).is_err() {
            return Err(AllocError);
        }
        for out in core.round(&[session])? {
            if !out.before.as_slice().starts_with(FILLED) {
                return Err(AllocError);
            }
        }
        core.close(session).map_err(|_| AllocError)
    }
}

// Written, and not derived, so that each end of a scope is one call to prove.
impl Drop for ServerBegun {
    fn drop(self) {
        let ServerBegun {
            alloc: _,
            hashing: _,
            run: _,
            filling: _,
            seed: _,
        } = self;
    }
}

/// Reads its schema, under the name that it has here. Only memory may be refused.
fn own_schema(alloc: Global) -> Result<Schema, AllocError> {
    Schema::read(alloc, SCHEMA).map_err(|_| AllocError)
}

/// Returns its schema as it is printed, with its own name.
pub(crate) fn printed_schema(alloc: Global) -> Result<Vec<u8>, AllocError> {
    let printed = own_schema(alloc)?.to_json(alloc)?;
    let Some(rest) = printed.as_slice().get(SCHEMA_BEGIN.len()..) else {
        return Err(AllocError);
    };
    let mut text = Vec::from_slice(alloc, SCHEMA_BEGIN)?;
    text.push(b'_')?;
    text.extend_from_slice(rest)?;
    Ok(text)
}

/// Makes the request that inserts the row of each database.
fn filling_request(alloc: Global, schemas: &[PrintedSchema]) -> Result<Vec<u8>, AllocError> {
    let params = inserts_of(alloc, schemas)?;
    let message = json!(in alloc; {"id": 0, "method": "transact", "params": params})?;
    message.to_vec(alloc)
}

/// Makes the `params` that insert the row of each database.
fn inserts_of(alloc: Global, schemas: &[PrintedSchema]) -> Result<Vec<Value>, AllocError> {
    let mut params = Vec::with_capacity(alloc, schemas.len().saturating_add(1))?;
    params.push(json!(in alloc; OWN)?)?;
    for schema in schemas {
        params.push(insert_of(alloc, schema)?)?;
    }
    Ok(params)
}

/// Makes the insert of the row of a database.
fn insert_of(alloc: Global, schema: &PrintedSchema) -> Result<Value, AllocError> {
    let name = schema.name();
    let Ok(text) = str::from_utf8(schema.text()) else {
        return Err(AllocError);
    };
    json!(in alloc; {
        "op": "insert",
        "table": "Database",
        "row": {"name": name, "model": "standalone", "connected": true, "leader": true, "schema": text}
    })
}

/// Returns the request that a text is.
fn request_of(alloc: Global, text: &[u8]) -> Result<Request, AllocError> {
    let mut framer = Framer::new(alloc, usize::MAX);
    let mut fed = framer.feed(text)?;
    match fed.messages.pop() {
        Some(Message::Request(request)) => Ok(request),
        _ => Err(AllocError),
    }
}

/// The database `_Server` of a thread that serves connections, of which each has a session from its first request on that
/// names it.
pub(crate) struct ServerDatabase {
    pub(crate) core: Core,
}

impl ServerDatabase {
    /// Ends a session. False says that memory was refused.
    pub(crate) fn close(&mut self, session: SessionId) -> bool {
        match self.core.close(session) {
            Ok(()) => true,
            Err(EventRefusal::Gone) => true,
            Err(_) => false,
        }
    }

    /// Takes a request of a session in, and then what the session is owed.
    pub(crate) fn submit(
        &mut self,
        alloc: Global,
        session: SessionId,
        asked: ServerRequest,
        now: u64,
    ) -> Result<VecDeque<Out>, AllocError> {
        let ServerRequest { submission, after } = asked;
        let Submission { request, fresh } = submission;
        if self
            .core
            .submit(session, request, fresh.as_slice(), now)
            .is_err()
        {
            return Err(AllocError);
        }
        let outs = self.take(alloc, session)?;
        match after {
            Some(after) => refused_in(alloc, outs, after),
            None => Ok(outs),
        }
    }

    /// Takes all that a session is owed.
    pub(crate) fn take(
        &mut self,
        alloc: Global,
        session: SessionId,
    ) -> Result<VecDeque<Out>, AllocError> {
        let mut outs = VecDeque::new(alloc);
        for _ in 0..u64::MAX {
            let given = self.core.round(&[session])?;
            if given.is_empty() {
                break;
            }
            for out in given {
                outs.push_back(out)?;
            }
        }
        Ok(outs)
    }
}

// Written, and not derived, so that each end of a scope is one call to prove.
impl Drop for ServerDatabase {
    fn drop(self) {
        let ServerDatabase { core: _ } = self;
    }
}

/// What is submitted to `_Server`: a request of which nothing is written, and how many operations come after the first that
/// would have been, if there is one.
#[derive(Drop)]
pub(crate) struct ServerRequest {
    submission: Submission,
    after: Option<usize>,
}

impl ServerRequest {
    /// Makes that of a request: under the schema's name, with an `abort` in the place of each operation that writes.
    pub(crate) fn of(
        alloc: Global,
        submission: Submission,
        identifiers: &mut RandomIdentifiers,
    ) -> Result<ServerRequest, AllocError> {
        if submission.request.is_notification() || !names_database(&submission.request) {
            return Ok(ServerRequest {
                submission,
                after: None,
            });
        }
        let request = &submission.request;
        let after = if has_writes(request) {
            Some(after_write(operations(request)))
        } else {
            None
        };
        let renamed = renamed(alloc, request)?;
        Ok(ServerRequest {
            submission: submission_of(alloc, renamed, identifiers)?,
            after,
        })
    }
}

fn renamed(alloc: Global, request: &Request) -> Result<Request, AllocError> {
    let params = params_for(alloc, request, OWN)?;
    let method = request.method();
    let message = match request.id() {
        Some(id) => json!(in alloc; {"id": id, "method": method, "params": params})?,
        None => return Err(AllocError),
    };
    let text = message.to_vec(alloc)?;
    request_of(alloc, text.as_slice())
}

/// Returns these replies with `not allowed` where an operation that would have written ended the transaction.
fn refused_in(
    alloc: Global,
    outs: VecDeque<Out>,
    after: usize,
) -> Result<VecDeque<Out>, AllocError> {
    let mut refused = VecDeque::new(alloc);
    for out in outs {
        refused.push_back(refused_as(alloc, out, after)?)?;
    }
    Ok(refused)
}

fn refused_as(alloc: Global, out: Out, after: usize) -> Result<Out, AllocError> {
    let mut out = out;
    let before = mem::replace(&mut out.before, Vec::new(alloc));
    out.before = with_refusal(alloc, before, after)?;
    Ok(out)
}

fn memory() -> ProgramFault {
    ProgramFault::Run(RunFault::Memory)
}

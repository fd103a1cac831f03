//! What operations (RFC 7047, section 5.2) ask for. [P 4.1]

use odb_cond::{Selector, Where};
use odb_mutate::Mutation;
use odb_schema::{ColumnId, TableId};
use uuid::Uuid;

/// An operation (RFC 7047, section 5.2), with its tables and columns by their places.
#[derive(Drop)]
pub enum Op {
    Insert(Insert),
    Select(Select),
    Update(Update),
    Mutate(Mutate),
    Delete(Delete),
    Wait(Wait),
    /// `commit` (section 5.2.7).
    Commit { durable: bool },
    /// `abort` (section 5.2.8).
    Abort,
    /// `comment` (section 5.2.9), whose text nothing needs.
    Comment,
    /// `assert` (section 5.2.10) that the session has the lock.
    Assert { lock: String },
}

/// `insert` (RFC 7047, section 5.2.1) of a row with these values.
#[derive(Drop)]
pub struct Insert {
    pub table: TableId,
    pub row: Vec<(ColumnId, odb_atoms::Value)>,
    /// `uuid-name`, which stands for the row's identifier in the transaction.
    pub name: Option<String>,
    /// `uuid` (ovsdb-server(7), 5.2.1), the identifier that the row is to have.
    pub uuid: Option<Uuid>,
}

/// `select` (RFC 7047, section 5.2.2) of these columns, in their order.
pub struct Select {
    pub table: TableId,
    pub conditions: Where,
    pub columns: Vec<Selector>,
}

/// `update` (RFC 7047, section 5.2.3), which writes these values.
pub struct Update {
    pub table: TableId,
    pub conditions: Where,
    pub row: Vec<(ColumnId, odb_atoms::Value)>,
}

/// `mutate` (RFC 7047, section 5.2.4), in this order.
pub struct Mutate {
    pub table: TableId,
    pub conditions: Where,
    pub mutations: Vec<Mutation>,
}

/// `delete` (RFC 7047, section 5.2.5).
pub struct Delete {
    pub table: TableId,
    pub conditions: Where,
}

/// `wait` (RFC 7047, section 5.2.6) until these columns of the rows that match are these rows, or aren't.
pub struct Wait {
    pub table: TableId,
    pub conditions: Where,
    pub columns: Vec<Selector>,
    pub until: Until,
    pub rows: Vec<Vec<(Selector, odb_atoms::Value)>>,
    /// In milliseconds; `None` is for ever.
    pub timeout: Option<u64>,
}

/// `until` of `wait` (RFC 7047, section 5.2.6).
#[derive(Clone, Copy)]
pub enum Until {
    /// `==`: the same set of rows.
    Equal,
    /// `!=`: another set of rows.
    NotEqual,
}

// Written, and not derived, so that each end of a scope is one call to prove.
impl Drop for Select {
    fn drop(self) {
        let Select {
            table: _,
            conditions: _,
            columns: _,
        } = self;
    }
}

impl Drop for Update {
    fn drop(self) {
        let Update {
            table: _,
            conditions: _,
            row: _,
        } = self;
    }
}

impl Drop for Mutate {
    fn drop(self) {
        let Mutate {
            table: _,
            conditions: _,
            mutations: _,
        } = self;
    }
}

impl Drop for Delete {
    fn drop(self) {
        let Delete {
            table: _,
            conditions: _,
        } = self;
    }
}

impl Drop for Wait {
    fn drop(self) {
        let Wait {
            table: _,
            conditions: _,
            columns: _,
            until: _,
            rows: _,
            timeout: _,
        } = self;
    }
}

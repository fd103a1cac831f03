//! Whether each table is named once, and in it each column.

ghost use Rattle.std.specs.Prelude.{◌≡◌, map};
ghost use Rattle.std.specs.List.{list_all};
ghost use Rattle.odb_request.specs.Represented.Parts.{are_apart, is_apart, is_free};
ghost use Rattle.odb_request.specs.Request.{column_names};
ghost use Rattle.odb_request.specs.Requests.{are_distinct, are_named};

use crate::columns::name_of;
use crate::request::Request;
use odb_cond::Selector;
use odb_schema::TableSchema;

/// Returns whether none of the columns has the name.
fn is_apart(name: &str, table: &TableSchema, columns: &[Selector]) -> bool
    ensures { result ≡ is_apart name.now table.now.columns columns.now }
{
    columns.iter().all(|column| name != name_of(table, *column))
}

/// Returns whether no two columns have one name.
fn are_apart(table: &TableSchema, columns: &[Selector]) -> bool
    ensures { result ≡ are_apart table.now.columns columns.now }
{
    let mut left = columns;
    while let [column, rest @ ..] = left {
        if !is_apart(name_of(table, *column), table, rest) {
            return false;
        }
        left = rest;
    }
    true
}

/// Returns whether no two columns of the request have one name.
fn has_columns_apart(request: &Request) -> bool
    ensures { result ≡ are_distinct (column_names request.now.shape.columns) }
{
    are_apart(request.shape().table_schema(), request.columns())
}

/// Returns whether no two columns of a request have one name.
fn have_columns_apart(requests: &[Request]) -> bool
    ensures { result ≡ list_all (λ q. are_distinct (column_names q.shape.columns)) requests.now }
{
    requests.iter().all(|request| has_columns_apart(request))
}

/// Returns whether no request is of the table with the name.
fn is_free(name: &str, requests: &[Request]) -> bool
    ensures { result ≡ is_free name.now requests.now }
{
    requests
        .iter()
        .all(|request| name != request.shape().table_schema().name())
}

/// Returns whether no two requests are of one table.
#[tactic(auto, using(crate::proofs::Apart::tables_named))]
fn are_tables_apart(requests: &[Request]) -> bool
    ensures { result ≡ are_distinct (map (λ q. q.shape.name) requests.now) }
{
    let mut left = requests;
    while let [request, rest @ ..] = left {
        if !is_free(request.shape().table_schema().name(), rest) {
            return false;
        }
        left = rest;
    }
    true
}

/// Returns whether each table is named once, and in it each column.
pub fn are_named(requests: &[Request]) -> bool
    ensures { result ≡ are_named requests.now }
{
    are_tables_apart(requests) && have_columns_apart(requests)
}

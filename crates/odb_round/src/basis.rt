//! What a round stands on.

use odb_schema::Schema;
use odb_sessions::Numbered;
use std::marker::Model;

/// What a round stands on: the schema, of which all requests are, and the open sessions.
#[derive(Drop)]
pub(crate) struct Basis<'a> {
    pub(crate) schema: &'a Schema,
    pub(crate) sessions: &'a Numbered,
}

impl<'a> Model for Basis<'a> {
    ghost use Rattle.odb_round.specs.Represented.Codes.{basis_code};
    ghost use Rattle.odb_round.specs.Known as model;

    ghost Value = { model.Basis };

    ghost coded = { basis_code };

    ghost view = { λ g. record { schema = g.schema.now; sessions = g.sessions.now } };
}

//! Ids of monitors. [P 9.1]
ghost use Rattle.std.specs.Prelude.{◌≡◌, IfOk, bytes_eq};
ghost use Rattle.serde_json.specs.View as json;
ghost use Rattle.serde_json.specs.Written.{compact_text};
ghost use Rattle.odb_rpc.specs.Represented.Printable.{printable_data};

use odb_rpc::Printable;
use serde_json::Value;
use std::alloc::{AllocError, Global};
use std::marker::Model;

/// The id of a monitor, with its compact text, by which ids are compared. It has no unsupported number.
pub struct Id {
    value: Value,
    text: Vec<u8>,
}

impl Model for Id {
    ghost use Rattle.std.specs.Prelude.{◌≡◌, false};
    ghost use Rattle.serde_json.specs.View as json;
    ghost use Rattle.serde_json.specs.Written.{compact_text};
    ghost use Rattle.odb_schema.specs.Json.{Data};
    ghost use Rattle.odb_schema.specs.JsonCode.{data_code};
    ghost use Rattle.odb_wire.specs.Message.{has_left_out};

    ghost Value = { Data };

    ghost coded = { data_code };

    ghost view = { λ i. json.view i.value };

    ghost invariant = { λ i. (i.text.items ≡ compact_text (json.view i.value)) × (has_left_out (json.view i.value) ≡ false) };
}

impl Id {
    /// Makes the id that a request names. O(n) for a text of n bytes.
    pub fn new(alloc: Global, id: Printable<'_>) -> Result<Id, AllocError>
        ensures { IfOk result (λ made. made ≡ printable_data id.entry) }
    {
        let text = id.to_vec(alloc)?;
        let value = copied(id)?;
        Ok(Id { value, text })
    }

    /// Returns whether the two are one id: their compact texts are equal. O(n) for texts of n bytes.
    pub fn same(&self, other: &Id) -> bool
        ensures { result ≡ bytes_eq (compact_text self.now) (compact_text other.now) }
    {
        self.text.as_slice() == other.text.as_slice()
    }

    /// Returns its compact text. O(1).
    pub(crate) fn text(&self) -> &[u8]
        ensures { result.now ≡ compact_text self.now }
    {
        self.text.as_slice()
    }
}

fn copied(id: Printable<'_>) -> Result<Value, AllocError>
    ensures { IfOk result (λ copy. json.view copy ≡ printable_data id.entry) }
{
    match id.value() {
        Some(value) => value.clone(),
        None => Ok(Value::Null),
    }
}

// Written, and not derived, so that each end of a scope is one call to prove.
impl Drop for Id {
    fn drop(self) {
        let Id { value: _, text: _ } = self;
    }
}

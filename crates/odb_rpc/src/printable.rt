//! JSON that can be printed: without numbers that are left out. [P 0.2]
ghost use Rattle.std.specs.Prelude.{◌≡◌, false, Some, None, IfOk, option_map, unwrap_or, if◌then◌else◌};
ghost use Rattle.serde_json.specs.Data.{null};
ghost use Rattle.serde_json.specs.View.{view};
ghost use Rattle.serde_json.specs.Written.{compact_text};
ghost use Rattle.odb_wire.specs.Message.{has_left_out};

use odb_wire::has_left_out_number;
use serde_json::Value;
use std::alloc::{AllocError, Global};

/// JSON of a message, borrowed, in which each number is an integer from -(2^63) to 2^63-1.
#[derive(Clone, Copy)]
pub struct Printable<'a> {
    value: Option<&'a Value>,
    ghost whole: { has_left_out (unwrap_or (option_map (λ v. view v.now) value) null) ≡ false },
}

impl<'a> Printable<'a> {
    ghost use Rattle.odb_rpc.specs.Represented.Printable.{printable_data};

    /// Returns `null`. O(1).
    pub fn null() -> Printable<'a>
        ensures { printable_data result ≡ null }
    {
        Printable { value: None }
    }

    /// Returns the value, unless it has a left-out number anywhere. It goes through the whole value.
    pub fn of(value: &'a Value) -> Option<Printable<'a>>
        ensures { option_map printable_data result
            ≡ (if has_left_out (view value.now) then None else Some (view value.now)) }
    {
        if has_left_out_number(value) {
            return None;
        }
        Some(Printable { value: Some(value) })
    }

    /// Returns the value, of which it is known. O(1).
    pub(crate) fn known(value: &'a Value) -> Printable<'a>
        requires { has_left_out (view value.now) ≡ false }
        ensures { printable_data result ≡ view value.now }
    {
        Printable { value: Some(value) }
    }

    /// Returns the JSON value in the message, or `None` for the `null` of `Printable::null`, which is in no
    /// message. O(1).
    pub fn value(self) -> Option<&'a Value>
        ensures { unwrap_or (option_map (λ v. view v.now) result) null ≡ printable_data self.entry }
    {
        self.value
    }

    /// Returns its compact text: no space between tokens, the members of objects by ascending keys. O(n)
    /// for a text of n bytes.
    pub fn to_vec(self, alloc: Global) -> Result<Vec<u8>, AllocError>
        ensures { IfOk result (λ text. text.items ≡ compact_text (printable_data self.entry)) }
    {
        match self.value {
            Some(value) => value.to_vec(alloc),
            None => Vec::from_slice(alloc, b"null"),
        }
    }
}

//! Identifiers for inserts: the k-th insert of a script has the UUID `00000000-0000-4000-8000-` and
//! k modulo 2^48 as twelve hexadecimal digits. [P 15.1]
ghost use Rattle.std.specs.Prelude.{◌≡◌, IfOk, map};
ghost use Rattle.odb_atoms.specs.Represented.Atom.{uuid_of};
ghost use Rattle.odb_script.specs.Script.{fresh_from, script_uuid};

use std::alloc::{AllocError, Global};
use uuid::Uuid;

/// Identifiers for the next inserts, of which so many were counted before.
pub(crate) fn fresh_uuids(
    alloc: Global,
    counted: u64,
    inserts: usize,
) -> Result<Vec<Uuid>, AllocError>
    ensures { IfOk result (λ fresh. map uuid_of fresh.items ≡ fresh_from counted inserts) }
{
    let mut fresh = Vec::with_capacity(alloc, inserts)?;
    for later in 0..inserts {
        let number = counted.checked_add(later as u64 + 1);
        let number = number.ok_or(AllocError)?;
        fresh.push(uuid_of_insert(number))?;
    }
    Ok(fresh)
}

fn uuid_of_insert(number: u64) -> Uuid
    ensures { uuid_of result ≡ script_uuid number }
{
    Uuid::from_u128(0x4000_8000_0000_0000_0000 + u128::from(number % (1 << 48)))
}

//! How many bytes the values of tables take in memory, which no contract says.

use odb_atoms::{Atom, Row, Value};

#[test]
fn sizes_stay_small(rt: HostRuntime) {
    assert_eq!(rt; size_of::<Atom>(), 32);
    assert_eq!(rt; size_of::<Value>(), 40);
    assert_eq!(rt; size_of::<Row>(), 40);
}

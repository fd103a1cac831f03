//! What is played: scripts of two sessions, which are open and close when the script has ended.

use std::alloc::{AllocError, Global};

/// The moment of `!tick`, in milliseconds.
pub(crate) const MOMENT: u64 = 1_000;

/// The schema.
pub(crate) const NET: &str = r#"{"name":"net","version":"1.0.0","tables":{
"Bridge":{"isRoot":true,"indexes":[["name"]],"columns":{"name":{"type":"string"},
 "ports":{"type":{"key":{"type":"uuid","refTable":"Port"},"min":0,"max":"unlimited"}}}},
"Port":{"columns":{"name":{"type":"string"},
 "opts":{"type":{"key":"string","value":"string","min":0,"max":"unlimited"}},
 "peer":{"type":{"key":{"type":"uuid","refTable":"Port","refType":"weak"},"min":0}}}}}}"#;

/// Rows that are told of once they are there, and that go with what keeps them.
pub(crate) const DELETED: [&str; 3] = [
    r#"B {"method":"transact","params":["net",{"op":"insert","table":"Bridge","row":{"name":"br0","ports":["named-uuid","p"]}},{"op":"insert","table":"Port","row":{"name":"p1"},"uuid-name":"p"}],"id":1}"#,
    r#"A {"method":"monitor_cond","params":["net","m",{"Bridge":[{"columns":["name"]}],"Port":[{"columns":["name"]}]}],"id":1}"#,
    r#"A {"method":"transact","params":["net",{"op":"delete","table":"Bridge","where":[]}],"id":2}"#,
];

/// A weak reference goes with the row that it names.
pub(crate) const WEAK: [&str; 3] = [
    r#"B {"method":"transact","params":["net",{"op":"insert","table":"Bridge","row":{"name":"b","ports":["set",[["named-uuid","a"],["named-uuid","c"]]]}},{"op":"insert","table":"Port","row":{"name":"p1"},"uuid-name":"a"},{"op":"insert","table":"Port","row":{"name":"p2","peer":["named-uuid","a"]},"uuid-name":"c"}],"id":1}"#,
    r#"A {"method":"monitor_cond","params":["net","m",{"Port":{"columns":["name","peer"]}}],"id":1}"#,
    r#"B {"method":"transact","params":["net",{"op":"update","table":"Bridge","where":[],"row":{"ports":["uuid","00000000-0000-4000-8000-000000000003"]}}],"id":2}"#,
];

/// Changes that a held session is told of as one, and a change and its way back that it isn't told of.
pub(crate) const MERGED: [&str; 8] = [
    r#"B {"method":"transact","params":["net",{"op":"insert","table":"Bridge","row":{"name":"br0","ports":["named-uuid","p"]}},{"op":"insert","table":"Port","row":{"name":"p1"},"uuid-name":"p"}],"id":1}"#,
    r#"A {"method":"monitor_cond","params":["net","m",{"Port":[{"columns":["opts"]}]}],"id":1}"#,
    "!hold A",
    r#"B {"method":"transact","params":["net",{"op":"mutate","table":"Port","where":[],"mutations":[["opts","insert",["map",[["k","1"]]]]]}],"id":2}"#,
    r#"B {"method":"transact","params":["net",{"op":"mutate","table":"Port","where":[],"mutations":[["opts","insert",["map",[["j","2"]]]]]}],"id":3}"#,
    r#"B {"method":"transact","params":["net",{"op":"mutate","table":"Port","where":[],"mutations":[["opts","delete","j"]]}],"id":4}"#,
    "!take A",
    r#"A {"method":"monitor_cancel","params":["m"],"id":2}"#,
];

/// Two changes of conditions that wait in the queue of a held session.
pub(crate) const SHIFTED: [&str; 7] = [
    r#"B {"method":"transact","params":["net",{"op":"insert","table":"Bridge","row":{"name":"br0"}}],"id":1}"#,
    r#"A {"method":"monitor_cond","params":["net","m1",{"Bridge":[{"columns":["name"]}]}],"id":1}"#,
    "!hold A",
    r#"A {"method":"monitor_cond_change","params":["m1","m2",{"Bridge":[{"where":[false]}]}],"id":2}"#,
    r#"B {"method":"transact","params":["net",{"op":"insert","table":"Bridge","row":{"name":"br1"}}],"id":2}"#,
    r#"A {"method":"monitor_cond_change","params":["m2","m3",{"Bridge":[{"where":[true]}]}],"id":3}"#,
    "!take A",
];

/// Clients that come back: with a commit that is found, with one that isn't, and a commit before they are told.
pub(crate) const RESUMED: [&str; 9] = [
    r#"B {"method":"transact","params":["net",{"op":"insert","table":"Bridge","row":{"name":"br0"}}],"id":1}"#,
    r#"B {"method":"transact","params":["net",{"op":"insert","table":"Bridge","row":{"name":"br1"}}],"id":2}"#,
    "!hold A",
    r#"A {"method":"monitor_cond_since","params":["net","m",{"Bridge":[{"columns":["name"]}]},"00000000-0000-0000-0000-000000000001"],"id":1}"#,
    r#"A {"method":"monitor_cond_since","params":["net","n",{"Bridge":[{"columns":["name"]}]},"00000000-0000-0000-0000-000000000000"],"id":2}"#,
    r#"B {"method":"transact","params":["net",{"op":"update","table":"Bridge","where":[["name","==","br1"]],"row":{"name":"x"}}],"id":3}"#,
    "!take A",
    r#"B {"method":"transact","params":["net",{"op":"delete","table":"Bridge","where":[["name","==","br0"]]}],"id":4}"#,
    r#"B {"method":"monitor_cond_since","params":["net","m",{"Bridge":[{"columns":["name"]}]},"00000000-0000-0000-0000-000000000002"],"id":5}"#,
];

/// A lock that another session waits for, transactions that wait for a commit, for a moment and for ever, and calls that
/// are refused.
pub(crate) const WAITS: [&str; 10] = [
    r#"A {"method":"lock","params":["L"],"id":1}"#,
    r#"B {"method":"lock","params":["L"],"id":1}"#,
    r#"A {"method":"monitor","params":["net",null,{"Bridge":{}}],"id":2}"#,
    r#"A {"method":"transact","params":["net",{"op":"wait","table":"Bridge","where":[],"columns":["name"],"until":"!=","rows":[]},{"op":"insert","table":"Bridge","row":{"name":"late"}}],"id":3}"#,
    r#"B {"method":"transact","params":["net",{"op":"wait","table":"Bridge","where":[["name","==","x"]],"columns":["name"],"until":"!=","rows":[],"timeout":500}],"id":2}"#,
    r#"B {"method":"transact","params":["net",{"op":"insert","table":"Bridge","row":{"name":"b"}},{"op":"assert","lock":"L"}],"id":3}"#,
    r#"B {"method":"transact","params":["net",{"op":"insert","table":"Bridge","row":{"name":"b"}}],"id":4}"#,
    "!tick 1000",
    r#"B {"method":"transact","params":["net",{"op":"wait","table":"Bridge","where":[],"columns":["name"],"until":"==","rows":[]}],"id":5}"#,
    r#"A {"method":"get_schema","params":["net"],"id":4}"#,
];

/// A monitor of a session that is held then.
const BEFORE_THE_FLOOD: [&str; 2] = [
    r#"A {"method":"monitor_cond","params":["net","m",{"Bridge":{"columns":["name"]}}],"id":0}"#,
    "!hold A",
];

const ECHO: &str = r#"A {"method":"echo","params":["}"],"id":1}"#;

/// What comes when its ring is full.
const AFTER_THE_FLOOD: [&str; 3] = [
    r#"B {"method":"transact","params":["net",{"op":"insert","table":"Bridge","row":{"name":"b"}}],"id":1}"#,
    r#"A {"method":"lock","params":["L"],"id":2}"#,
    "!take A",
];

/// Returns more replies than a ring has room for, while nobody takes them: the 65th is held back, and what comes then
/// has to wait.
pub(crate) fn flood(alloc: Global) -> Result<Vec<&'static str>, AllocError> {
    let mut script = Vec::from_slice(alloc, &BEFORE_THE_FLOOD)?;
    for _ in 0..70 {
        script.push(ECHO)?;
    }
    script.extend_from_slice(&AFTER_THE_FLOOD)?;
    Ok(script)
}

//! Scripts that are run.

use crate::refusals::made::schema;
use crate::refusals::sent::text;
use odb_script::{FailureLatch, RunFault, run_script};
use std::alloc::{AllocError, Global};
use std::hash::RandomState;
use std::io::BufReader;

/// Returns what a run prints, and how it ends. Memory may be refused in it, and not in what is made for it.
pub(crate) fn play_to_script(
    alloc: Global,
    hashing: RandomState,
    input: &[u8],
) -> Result<(Vec<u8>, Result<(), RunFault>), AllocError> {
    let mut printed = text(alloc)?;
    let schema = schema(alloc)?;
    let mut reader = match BufReader::new(alloc, FailureLatch::new(input)) {
        Ok(reader) => reader,
        Err(_) => match BufReader::new(alloc, FailureLatch::new(input)) {
            Ok(reader) => reader,
            Err(_) => return Err(AllocError),
        },
    };
    let mut writer = FailureLatch::new(&mut printed);
    let ended = run_script(alloc, schema, hashing, &mut reader, &mut writer);
    drop(writer);
    Ok((printed, ended))
}

/// Returns the text of a script: its lines between those that open and close two sessions.
pub(crate) fn input(alloc: Global, script: &[&str]) -> Result<Vec<u8>, AllocError> {
    let mut input = Vec::from_slice(alloc, b"!open A\n!open B\n")?;
    for line in script {
        input.extend_from_slice(line.as_bytes())?;
        input.push(b'\n')?;
    }
    input.extend_from_slice(b"!close A\n!close B\n")?;
    Ok(input)
}

/// Returns what a run prints for the session of this name, message after message.
pub(crate) fn lines_of(alloc: Global, printed: &[u8], name: u8) -> Result<Vec<u8>, AllocError> {
    let mut lines = text(alloc)?;
    for line in printed.split(|byte| *byte == b'\n') {
        if let [first, b' ', text @ ..] = line {
            if *first == name {
                lines.extend_from_slice(text)?;
            }
        }
    }
    Ok(lines)
}

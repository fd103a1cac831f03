//! The results of a transaction, as the text of its reply (RFC 7047, section 4.1.3).
ghost use Rattle.std.specs.Prelude.{◌≡◌, ◌++◌, IfOk, OnOk};
ghost use Rattle.serde_json.specs.Data.{Data};
ghost use Rattle.serde_json.specs.Written.{compact_text};
ghost use Rattle.odb_queue.specs.Represented.Results.{item_texts, later_texts};
ghost use Rattle.odb_rpc.specs.Message as message;
ghost use Rattle.odb_schema.specs.Json.{array_of};

use odb_ops::OperationResult;
use odb_rpc::{after_result, before_result_printed};
use std::alloc::{AllocError, Global};

/// Returns the reply with these results, for an id that is printed already. O(n) for a text of n bytes.
pub fn results_text(
    alloc: Global,
    id: &[u8],
    results: &[OperationResult],
) -> Result<Vec<u8>, AllocError>
    ensures { IfOk result (λ text. (i : Data) → id.now ≡ compact_text i
        → text.items ≡ compact_text (message.reply i (array_of results.now))) }
{
    let mut text = before_result_printed(alloc, id)?;
    // So that it doesn't grow, and what is large isn't copied again.
    text.reserve(size_of(results))?;
    add_array(&mut text, results)?;
    text.extend_from_slice(after_result())?;
    Ok(text)
}

/// Returns how many bytes the results take, with what stands around them.
fn size_of(results: &[OperationResult]) -> usize {
    let mut size = results.len().saturating_add(3);
    for result in results {
        size = size.saturating_add(result.text().len());
    }
    size
}

/// Adds the array of the results.
fn add_array(text: &mut Vec<u8>, results: &[OperationResult]) -> Result<(), AllocError>
    ensures { OnOk result (text.new.items ≡ text.old.items ++ compact_text (array_of results.now)) }
{
    text.push(b'[')?;
    add_items(text, results)?;
    text.push(b']')?;
    Ok(())
}

/// Adds the results, with commas between them.
fn add_items(text: &mut Vec<u8>, results: &[OperationResult]) -> Result<(), AllocError>
    ensures { OnOk result (text.new.items ≡ text.old.items ++ item_texts results.now) }
{
    let [first, later @ ..] = results else {
        return Ok(());
    };
    text.extend_from_slice(first.text())?;
    add_later(text, later)
}

/// Adds the results, each after a comma.
fn add_later(text: &mut Vec<u8>, results: &[OperationResult]) -> Result<(), AllocError>
    ensures { OnOk result (text.new.items ≡ text.old.items ++ later_texts results.now) }
{
    for result in results {
        text.push(b',')?;
        text.extend_from_slice(result.text())?;
    }
    Ok(())
}

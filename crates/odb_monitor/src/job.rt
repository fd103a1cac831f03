//! What is owed to the client of a monitor, composed (RFC 7047, sections 4.1.5 and 4.1.6;
//! ovsdb-server(7), 4.1.12 to 4.1.14). [P 9.3]
ghost use Rattle.std.specs.Prelude.{◌≡◌, ◌<◌, ◌||◌, ◌++◌, ◌∷◌, [], IfOk, OnOk, Some, false, flat_map, is_some, length, not, option_map, slice_get, true};
ghost use Rattle.std.specs.List.{list_any};
ghost use Rattle.json.specs.Token.{begin_object, end_object};
ghost use Rattle.serde_json.specs.Written.{compact_text};
ghost use Rattle.odb_monitor.specs.Job as model_job;
ghost use Rattle.odb_monitor.specs.Job.{updates_of};
ghost use Rattle.odb_monitor.specs.Listing.{listed_tokens};
ghost use Rattle.odb_monitor.specs.Represented.Part.{is_silent, part_tokens};
ghost use Rattle.odb_request.specs.Represented.Notation.{notation_of};

use crate::listing::Listing;
use crate::part::Part;
use json::Token;
use odb_print::Printer;
use odb_request::Notation;
use std::alloc::{AllocError, Global};
use std::marker::Model;
use std::mem;
use std::thread::Threads;

/// What is owed to the client of a monitor: the difference between what it was told and what is asked, table
/// by table, in the order of the parts.
#[derive(Drop)]
pub struct Job<'a> {
    notation: Notation,
    first: bool,
    reply: bool,
    parts: Vec<Part<'a>>,
}

impl<'a> Model for Job<'a> {
    ghost use Rattle.odb_monitor.specs.Job as model;
    ghost use Rattle.odb_monitor.specs.Represented.Part.{job_code};
    ghost use Rattle.odb_request.specs.Represented.Notation.{notation_of};

    ghost Value = { model.Job };

    ghost coded = { job_code };

    ghost view = { λ j. record {
      notation = notation_of j.notation;
      first = j.first;
      reply = j.reply;
      parts = j.parts.items;
    } };
}

impl<'a> Job<'a> {
    /// Makes the job of what is owed by these parts, in a first reply or later. O(1).
    pub fn new(notation: Notation, first: bool, parts: Vec<Part<'a>>) -> Job<'a>
        ensures { result ≡ record { notation = notation_of notation; first = first; reply = first; parts = parts.entry.items } }
    {
        Job {
            notation,
            first,
            reply: first,
            parts,
        }
    }

    /// Makes a reply of what is owed by these parts to a client that resumes (ovsdb-server(7), 4.1.15): it had rows
    /// already. O(1).
    pub fn resumed(notation: Notation, parts: Vec<Part<'a>>) -> Job<'a>
        ensures { result ≡ record { notation = notation_of notation; first = false; reply = true; parts = parts.entry.items } }
    {
        Job {
            notation,
            first: false,
            reply: true,
            parts,
        }
    }

    /// Takes the parts out, and leaves none. O(1).
    pub fn take_parts(&mut self, alloc: Global) -> Vec<Part<'a>>
        ensures parts { result.items ≡ self.old.parts }
        ensures others { self.new ≡ record self.old { parts = [] } }
    {
        mem::replace(&mut self.parts, Vec::new(alloc))
    }

    /// Returns the job with these parts in place of its own. O(1), and O(n) for n parts of its own.
    pub fn with_parts(self, parts: Vec<Part<'a>>) -> Job<'a>
        ensures { result ≡ record self.entry { parts = parts.entry.items } }
    {
        Job {
            notation: self.notation,
            first: self.first,
            reply: self.reply,
            parts,
        }
    }

    /// Counts the rows of its tables that changed since the client was told. O(n) for n tables. No contract speaks of it.
    pub fn changed_rows(&self) -> usize {
        let mut rows: usize = 0;
        for part in &self.parts {
            rows = rows.saturating_add(part.changed_rows());
        }
        rows
    }

    /// Returns whether something is sent: some row is shown, or this is a reply. It stops at the first row that is
    /// shown.
    ///
    /// O(the rows changed), and where nothing was told yet or another filter was asked also O(the rows that are asked
    /// for, or that the filters may tell apart), and what `odb_tables::Rows::selected` costs to find them.
    pub fn has_updates(&self, alloc: Global) -> Result<bool, AllocError>
        ensures { IfOk result (λ has. has ≡ is_some (updates_of self.now)) }
    {
        if self.reply {
            return Ok(true);
        }
        has_lines(alloc, self.first, &self.parts)
    }

    /// Returns whether something is sent, where it is known whether some row is shown. O(1).
    pub(crate) fn is_sent(&self, shown: bool) -> bool
        ensures { result ≡ (self.now.reply || shown) }
    {
        self.reply || shown
    }

    /// Returns how many tables the job has. O(1).
    pub fn tables(&self) -> usize
        ensures { result ≡ length self.now.parts }
    {
        self.parts.len()
    }

    /// Lists the rows of the table of the part at this place of which something may be shown, by ascending identifier, so
    /// that several may print pieces of them.
    ///
    /// Of n rows O(n log n), and a thread for each processor but one where there are 4,096 or more: the rows changed, and
    /// where another filter was asked also those that the two may tell apart; where nothing was told yet, the rows that are
    /// asked for. `odb_tables::Rows::selected` says what finding them costs.
    pub fn list<R: Threads + Sync>(
        &self,
        rt: &R,
        alloc: Global,
        place: usize,
    ) -> Result<Listing<'_>, AllocError>
        requires { place < length self.now.parts }
        ensures { IfOk result (λ listing. (p : model_job.Part) → slice_get self.now.parts place ≡ Some p
            → listed_tokens listing ≡ part_tokens self.now.notation self.now.first p) }
    {
        self.parts[place].list(rt, alloc, self.notation, self.first)
    }
}

/// Returns whether a row of some part is shown.
fn has_lines(alloc: Global, first: bool, parts: &[Part<'_>]) -> Result<bool, AllocError>
    ensures { IfOk result (λ shown. shown ≡ list_any (λ p. not (is_silent first p)) parts.now) }
{
    for part in parts {
        if part.has_lines(alloc, first)? {
            return Ok(true);
        }
    }
    Ok(false)
}

/// Prints the parts, and says whether a row of some part is shown.
fn put_parts(
    alloc: Global,
    notation: Notation,
    first: bool,
    parts: &[Part<'_>],
    out: &mut Printer,
) -> Result<bool, AllocError>
    ensures tokens { OnOk result (out.new ≡ out.old ++ flat_map (part_tokens (notation_of notation) first) parts.now) }
    ensures shown { IfOk result (λ shown. shown ≡ list_any (λ p. not (is_silent first p)) parts.now) }
{
    let mut shown = false;
    for part in parts {
        let has_lines = part.put(alloc, notation, first, out)?;
        shown = shown || has_lines;
    }
    Ok(shown)
}

/// Prints the object of the parts, and says whether a row of some part is shown.
fn put_object(
    alloc: Global,
    notation: Notation,
    first: bool,
    parts: &[Part<'_>],
    out: &mut Printer,
) -> Result<bool, AllocError>
    ensures tokens { OnOk result (out.new ≡ out.old ++ (begin_object ∷ (flat_map (part_tokens (notation_of notation) first) parts.now ++ end_object ∷ []))) }
    ensures shown { IfOk result (λ shown. shown ≡ list_any (λ p. not (is_silent first p)) parts.now) }
{
    out.put(Token::BeginObject)?;
    let shown = put_parts(alloc, notation, first, parts, out)?;
    out.put(Token::EndObject)?;
    Ok(shown)
}

/// Composes what is sent of the job, as compact JSON text (RFC 8259): the table updates (RFC 7047, section
/// 4.1.6) of `monitor`, or those of `monitor_cond` (ovsdb-server(7), 4.1.14), without the kinds of
/// change that are switched off; `None` where nothing of them is left, but that a reply is always
/// sent.
///
/// O(the bytes printed) and, of n rows to be compared, O(n log n): the rows changed, and where another filter was
/// asked also those that the two may tell apart; where nothing was told yet, the rows that are asked for.
/// `odb_tables::Rows::selected` says what finding them costs.
pub fn compose(alloc: Global, job: &Job<'_>) -> Result<Option<Vec<u8>>, AllocError>
    ensures { IfOk result (λ text. option_map (λ t. t.items) text ≡ option_map compact_text (updates_of job.now)) }
{
    let mut out = Printer::new(alloc);
    let shown = put_object(alloc, job.notation, job.first, &job.parts, &mut out)?;
    let is_sent = job.reply || shown;
    if !is_sent {
        return Ok(None);
    }
    Ok(Some(out.finish()))
}

//! The text of a job, put together of pieces. [P 9.3]
ghost use Rattle.std.specs.Prelude.{◌≡◌, ◌++◌, ◌∷◌, [], Bool, IfOk, List, OnOk, fold, map, option_map};
ghost use Rattle.std.specs.List.{list_all};
ghost use Rattle.serde_json.specs.Written.{compact_text};
ghost use Rattle.odb_monitor.specs.Job.{Part, updates_of};
ghost use Rattle.odb_monitor.specs.Listing.{AreOfRows, listed_tokens};
ghost use Rattle.odb_monitor.specs.Represented.Joining.{with_comma, with_piece, with_pieces, with_table};
ghost use Rattle.odb_monitor.specs.Represented.Part.{part_tokens, tables_text};
ghost use Rattle.odb_monitor.specs.View.{is_empty};
ghost use Rattle.odb_request.specs.Request.{Notation};

use crate::job::Job;
use crate::listing::Listing;
use std::alloc::{AllocError, Global};
use std::marker::Model;

/// What stands of the text of a job before its first table: a bracket.
const BEGUN: usize = 1;

/// How many bytes stand around a table at most: a comma, its closing bracket and that of the whole.
const AROUND: usize = 3;

/// The text of a job, as far as it is put together: the tables so far. Where one of its calls was refused memory, it is of no
/// use.
#[derive(Drop)]
pub struct Joining {
    text: Vec<u8>,
}

impl Model for Joining {
    ghost use Rattle.std.specs.Prelude.{List, ℕ};
    ghost use Rattle.std.specs.Coded.{coded_list, coded_ℕ};

    ghost Value = { List ℕ };

    ghost coded = { coded_list coded_ℕ };

    ghost view = { λ j. j.text.items };
}

impl Joining {
    /// Begins the text, with no table. O(1).
    pub fn new(alloc: Global) -> Result<Joining, AllocError>
        ensures { IfOk result (λ joining. (n : Notation) (first : Bool) → joining ≡ tables_text n first []) }
    {
        let text = Vec::from_slice(alloc, b"{")?;
        Ok(Joining { text })
    }

    /// Adds a table, by the texts of pieces of its rows, in their order. O(the bytes).
    pub fn put(
        &mut self,
        alloc: Global,
        listing: &Listing<'_>,
        pieces: &[Vec<u8>],
    ) -> Result<(), AllocError>
        requires { AreOfRows listing.now.rows (map (λ piece. piece.items) pieces.now) }
        ensures { OnOk result ((n : Notation) (first : Bool) (ps : List Part) (p : Part) → self.old ≡ tables_text n first ps
            → listed_tokens listing.now ≡ part_tokens n first p → self.new ≡ tables_text n first (ps ++ p ∷ [])) }
    {
        let head = listing.head(alloc)?;
        if are_empty(pieces) {
            return Ok(());
        }
        put_table(&mut self.text, &head, pieces)
    }

    /// Returns what is sent of the job, of which all tables stand here: what `compose` returns. O(1).
    pub fn finish(self, job: &Job<'_>) -> Result<Option<Vec<u8>>, AllocError>
        requires { self ≡ tables_text job.now.notation job.now.first job.now.parts }
        ensures { IfOk result (λ text. option_map (λ t. t.items) text ≡ option_map compact_text (updates_of job.now)) }
    {
        let Joining { mut text } = self;
        if !job.is_sent(text.len() > BEGUN) {
            return Ok(None);
        }
        text.push(b'}')?;
        Ok(Some(text))
    }
}

/// Returns whether each of the pieces is empty.
fn are_empty(pieces: &[Vec<u8>]) -> bool
    ensures { result ≡ list_all (λ piece. is_empty piece.items) pieces.now }
{
    pieces.iter().all(|piece| is_bare(piece))
}

/// Returns whether the piece is empty.
fn is_bare(piece: &Vec<u8>) -> bool
    ensures { result ≡ is_empty piece.now.items }
{
    piece.is_empty()
}

/// Adds a table, from its head on to its closing bracket.
fn put_table(text: &mut Vec<u8>, head: &[u8], pieces: &[Vec<u8>]) -> Result<(), AllocError>
    ensures { OnOk result (text.new.items ≡ with_table text.old.items head.now (map (λ piece. piece.items) pieces.now)) }
{
    text.reserve(room_for(head, pieces))?;
    separate(text, BEGUN)?;
    text.extend_from_slice(head)?;
    put_pieces(text, pieces)?;
    if text.push(b'}').is_err() {
        return Err(AllocError);
    }
    Ok(())
}

/// Adds up how many bytes a table takes by its pieces at most, with the commas and brackets around it. No contract speaks of
/// it.
fn room_for(head: &[u8], pieces: &[Vec<u8>]) -> usize {
    let mut room = head.len().saturating_add(AROUND);
    for piece in pieces {
        room = room.saturating_add(piece.len()).saturating_add(1);
    }
    room
}

/// Adds a comma, where something stands past this place.
fn separate(text: &mut Vec<u8>, start: usize) -> Result<(), AllocError>
    ensures { OnOk result (text.new.items ≡ with_comma start text.old.items) }
{
    if text.len() <= start {
        return Ok(());
    }
    if text.push(b',').is_err() {
        return Err(AllocError);
    }
    Ok(())
}

/// Adds the pieces, with commas between those that aren't empty.
fn put_pieces(text: &mut Vec<u8>, pieces: &[Vec<u8>]) -> Result<(), AllocError>
    ensures { OnOk result (text.new.items ≡ with_pieces text.old.items (map (λ piece. piece.items) pieces.now)) }
{
    let start = text.len();
    for piece in pieces {
        put_piece(text, start, piece)?;
    }
    Ok(())
}

/// Adds a piece, with a comma before it where one stands past this place.
fn put_piece(text: &mut Vec<u8>, start: usize, piece: &[u8]) -> Result<(), AllocError>
    ensures { OnOk result (text.new.items ≡ with_piece start text.old.items piece.now) }
{
    if piece.is_empty() {
        return Ok(());
    }
    separate(text, start)?;
    text.extend_from_slice(piece)
}

//! Texts of first replies: until the database changes, who asks the same is told the same, by one text. [P 9.2, 10.3]
ghost use Rattle.std.specs.Prelude.{◌≡◌, [], IfOk, IfSome, Some};
ghost use Rattle.std.specs.Bool.{OnTrue};
ghost use Rattle.odb_sessions.specs.Composed.{asked_of, composition};
ghost use Rattle.odb_sessions.specs.FirstTexts.{AreFirstTexts, AsksSo, IsFirstText};
ghost use Rattle.odb_sessions.specs.Represented.Composed.{bytes_of};
ghost use Rattle.odb_sessions.specs.Represented.Job.{job_in};
ghost use Rattle.odb_sessions.specs.declared.way.Way.TheVariants as way;
ghost use Rattle.odb_tables.specs.Database as model_db;

use crate::monitor::{Monitor, Watching};
use odb_request::{Notation, Request};
use std::alloc::{AllocError, Global};
use std::marker::Model;
use std::sync::Arc;

/// How many texts are kept at most.
const MOST_KEPT: usize = 8;

/// The table updates of a first reply as text, and what was asked: until the database changes, whoever asks the same is
/// told the same by it, if it is kept ([`Sessions::add_first_text`](crate::Sessions::add_first_text)).
#[derive(Drop)]
pub struct FirstText {
    notation: Notation,
    requests: Vec<Request>,
    text: Arc<Vec<u8>>,
}

impl Model for FirstText {
    ghost use Rattle.odb_request.specs.Represented.Notation.{notation_of};
    ghost use Rattle.odb_sessions.specs.FirstTexts as model;
    ghost use Rattle.odb_sessions.specs.Represented.Codes.{first_text_code};
    ghost use Rattle.odb_sessions.specs.Represented.Composed.{bytes_of};

    ghost Value = { model.FirstText };

    ghost coded = { first_text_code };

    ghost view = { λ f. record { notation = notation_of f.notation; requests = f.requests.items; text = bytes_of f.text } };
}

impl FirstText {
    /// Makes the text of what the client of this monitor is told first. O(n) for n tables. An error says that memory was
    /// refused.
    pub fn new(
        alloc: Global,
        monitor: &Monitor,
        text: &Arc<Vec<u8>>,
    ) -> Result<FirstText, AllocError>
        ensures { IfOk result (λ first. first ≡ record { notation = monitor.now.notation; requests = asked_of monitor.now.tables; text = bytes_of text.now }) }
    {
        let requests = requests_of(alloc, monitor.tables.as_slice())?;
        Ok(FirstText {
            notation: monitor.notation,
            requests,
            text: text.clone()?,
        })
    }

    /// Returns whether the client of this monitor is told the same first. `false` says nothing.
    fn serves(&self, monitor: &Monitor) -> bool
        ensures { OnTrue result (AsksSo self.now monitor.now) }
    {
        self.notation == monitor.notation
            && ask_so(self.requests.as_slice(), monitor.tables.as_slice())
    }

    fn text(&self) -> &Arc<Vec<u8>>
        ensures { bytes_of result.now ≡ self.now.text }
    {
        &self.text
    }
}

/// Returns what is asked of these tables.
fn requests_of(alloc: Global, tables: &[Watching]) -> Result<Vec<Request>, AllocError>
    ensures { IfOk result (λ requests. requests.items ≡ asked_of tables.now) }
{
    let mut requests = Vec::with_capacity(alloc, tables.len())?;
    for table in tables {
        requests.push_reserved(table.request.try_copy()?);
    }
    Ok(requests)
}

/// Returns whether these are asked of the tables. `false` says nothing.
fn ask_so(requests: &[Request], tables: &[Watching]) -> bool
    ensures { OnTrue result (requests.now ≡ asked_of tables.now) }
{
    if requests.len() != tables.len() {
        return false;
    }
    for place in 0..requests.len() {
        if !tables[place].asks(&requests[place]) {
            return false;
        }
    }
    true
}

/// The texts of the newest first replies, each of other requests.
#[derive(Drop)]
pub struct FirstTexts {
    texts: Vec<FirstText>,
}

impl Model for FirstTexts {
    ghost use Rattle.std.specs.Prelude.{List};
    ghost use Rattle.odb_sessions.specs.FirstTexts as model;
    ghost use Rattle.odb_sessions.specs.Represented.Codes.{first_texts_code};

    ghost Value = { List model.FirstText };

    ghost coded = { first_texts_code };

    ghost view = { λ f. f.texts.items };
}

impl FirstTexts {
    /// Makes first texts, of which there are none. O(1).
    pub(crate) fn new(alloc: Global) -> FirstTexts
        ensures { result ≡ [] }
    {
        FirstTexts {
            texts: Vec::new(alloc),
        }
    }

    /// Returns the text that the client of this monitor is told first, if it is one of these. At most eight comparisons
    /// of what is asked.
    pub fn find(&self, monitor: &Monitor) -> Option<&Arc<Vec<u8>>>
        ensures { IfSome result (λ text. (db : model_db.Db) → AreFirstTexts db self.now → Some (bytes_of text.now) ≡ composition (job_in db monitor.now way.First)) }
    {
        for first in &self.texts {
            if first.serves(monitor) {
                return Some(first.text());
            }
        }
        None
    }

    /// Adds a text, and forgets all others where as many are kept as may be. Where memory is refused it isn't
    /// kept.
    pub(crate) fn add(&mut self, first: FirstText)
        ensures { (db : model_db.Db) → IsFirstText db first → AreFirstTexts db self.old → AreFirstTexts db self.new }
    {
        if self.texts.len() >= MOST_KEPT {
            self.clear();
        }
        drop(self.texts.push(first));
    }

    /// Forgets all.
    pub(crate) fn clear(&mut self)
        ensures { self.new ≡ [] }
    {
        self.texts.clear();
    }
}

//! Contents for which marks stand: what changed since is told of each, however others go, and a long history costs no more
//! than a short one.

use odb_atoms::{Atom, Row, Value};
use odb_chain::{Chains, Mark};
use odb_schema::TableId;
use odb_tables::{Db, Draft};
use std::alloc::{AllocError, Global};
use std::hash::RandomState;
use std::marker::Model;
use std::test::Fail;
use uuid::Uuid;

/// How many marks are made at most.
const MARKS: usize = 100;

/// A database with its past, whose first table counts, and all marks that stand for contents of it, the earliest first.
struct Marked {
    alloc: Global,
    chains: Chains,
    marks: Vec<Mark>,
}

impl Model for Marked {
    ghost use Rattle.std.specs.Prelude.{◌<◌, length};
    ghost use Rattle.odb_chain.specs.Chains as model;
    ghost use Rattle.odb_chain.specs.Chains.{IsNow};
    ghost use Rattle.odb_chain.specs.Marks.{AreAllMarks};
    ghost use Rattle.odb_chain.specs.Represented.Codes.{chains_code};

    ghost Value = { model.Chains };

    ghost coded = { chains_code };

    ghost view = { λ m. m.chains };

    ghost invariant = { λ m. (0 < length m.chains.db) × IsNow m.chains × AreAllMarks m.chains m.marks.items };
}

/// Returns the row of this number.
fn row_of(alloc: Global, number: i64) -> Result<Row, AllocError> {
    let mut columns = Vec::with_capacity(alloc, 1)?;
    columns.push(Value::one(Atom::Integer(number)))?;
    Ok(Row::new(Uuid::nil(), columns))
}

/// Returns whether it is the row of this number, or none is there where none is asked.
fn is_of(row: Option<&Row>, number: Option<i64>) -> bool {
    let Some(row) = row else {
        return number.is_none();
    };
    let Some(number) = number else {
        return false;
    };
    match row.get(0) {
        Some(value) => *value == Value::one(Atom::Integer(number)),
        None => false,
    }
}

impl Marked {
    /// Makes a database of one table without rows, and no marks.
    fn new(alloc: Global, hashing: RandomState) -> Result<Marked, AllocError> {
        let db = Db::new(alloc, 1, hashing)?;
        let chains = Chains::new(alloc, db, hashing)?;
        Ok(Marked {
            alloc,
            chains,
            marks: Vec::new(alloc),
        })
    }

    /// Adds a mark for what the table is now; there are a hundred at most.
    fn mark(&mut self) -> Result<(), AllocError> {
        if self.marks.len() >= MARKS {
            return Err(AllocError);
        }
        self.marks.reserve(1)?;
        let _now = self.chains.db();
        let mark = self.chains.mark_now(TableId::at(0));
        self.marks.push_reserved(mark);
        Ok(())
    }

    /// Gives the mark at this place back, if there is one.
    fn release(&mut self, place: usize) {
        if place >= self.marks.len() {
            return;
        }
        let _before = self.chains.db();
        let mark = self.marks.remove(place);
        self.chains.release(mark);
        let _after = self.chains.db();
    }

    /// Puts the row of this number into the table, or takes its row out where there is no number.
    fn put(&mut self, number: Option<i64>) -> Result<(), AllocError> {
        let mut draft = Draft::new(self.alloc, self.chains.db())?;
        match number {
            Some(number) => draft.put(TableId::at(0), Uuid::nil(), row_of(self.alloc, number)?)?,
            None => draft.remove(TableId::at(0), Uuid::nil())?,
        }
        let change = draft.changes()?;
        self.chains.absorb(change)?;
        let _after = self.chains.db();
        Ok(())
    }

    /// Returns whether nothing is told of the mark at this place.
    fn tells_nothing(&self, place: usize) -> Result<bool, AllocError> {
        let Some(mark) = self.marks.get(place) else {
            return Err(AllocError);
        };
        Ok(self.chains.since(mark)?.is_empty())
    }

    /// Returns whether it is told of the mark at this place that the row of this number is gone, and nothing else.
    fn tells_gone(&self, place: usize, number: i64) -> Result<bool, AllocError> {
        let Some(mark) = self.marks.get(place) else {
            return Err(AllocError);
        };
        let made = self.chains.since(mark)?;
        let [change] = made.rows() else {
            return Ok(false);
        };
        Ok(is_of(change.old(), Some(number)) && is_of(change.new(), None))
    }

    /// Returns for how many contents marks stand.
    fn contents(&self) -> usize {
        self.chains.distinct_marks(TableId::at(0))
    }

    /// Returns how many segments are kept.
    fn segments(&self) -> usize {
        self.chains.segments(TableId::at(0))
    }
}

/// Marks are made before the row comes, when its number is 1, and when it is 2; then it goes.
fn three_marks(alloc: Global, hashing: RandomState) -> Result<Marked, AllocError> {
    let mut marked = Marked::new(alloc, hashing)?;
    marked.mark()?;
    marked.put(Some(1))?;
    marked.mark()?;
    marked.put(Some(2))?;
    marked.mark()?;
    marked.put(None)?;
    Ok(marked)
}

#[test]
fn what_changed_since_is_told_of_each_mark(rt: HostRuntime) -> Result<(), Fail> {
    let marked = three_marks(rt.alloc(), RandomState::new(&rt)?)?;
    assert!(rt; marked.tells_nothing(0)?, "it came and went");
    assert!(rt; marked.tells_gone(1, 1)?, "it was 1");
    assert!(rt; marked.tells_gone(2, 2)?, "it was 2");
    assert_eq!(rt; marked.contents(), 3);
    Ok(())
}

#[test]
fn marks_that_go_leave_what_others_tell(rt: HostRuntime) -> Result<(), Fail> {
    let mut marked = three_marks(rt.alloc(), RandomState::new(&rt)?)?;
    marked.release(1);
    assert!(rt; marked.tells_nothing(0)?, "it came and went");
    assert!(rt; marked.tells_gone(1, 2)?, "it was 2");
    assert_eq!(rt; marked.contents(), 2);
    marked.release(0);
    assert!(rt; marked.tells_gone(0, 2)?, "it was 2");
    assert_eq!(rt; marked.contents(), 1);
    assert!(rt; marked.segments() <= 1);
    Ok(())
}

/// How often a row changes then.
const CHANGES: i64 = 1_000;

#[test]
fn a_long_history_is_one_segment(rt: HostRuntime) -> Result<(), Fail> {
    let mut marked = Marked::new(rt.alloc(), RandomState::new(&rt)?)?;
    for _ in 0..MARKS {
        marked.mark()?;
    }
    for number in 0..CHANGES {
        marked.put(Some(number))?;
        assert!(rt; marked.segments() <= 1);
    }
    assert_eq!(rt; marked.contents(), 1);
    marked.put(None)?;
    assert!(rt; marked.tells_nothing(MARKS - 1)?, "it came and went");
    Ok(())
}

// Written, and not derived, so that each end of a scope is one call to prove.
impl Drop for Marked {
    fn drop(self) {
        let Marked {
            alloc: _,
            chains: _,
            marks: _,
        } = self;
    }
}

//! The rows of a table, listed so that several may print pieces of them. [P 9.3]
ghost use Rattle.std.specs.Prelude.{◌≡◌, ◌++◌, ◌∷◌, [], IfOk, OnOk, drop, flat_map, length, take};
ghost use Rattle.json.specs.Print.{print};
ghost use Rattle.json.specs.Token.{begin_object, key};
ghost use Rattle.odb_monitor.specs.Listing.{rows_text};
ghost use Rattle.odb_monitor.specs.Represented.Listing.{listing_in, shown_tokens, side_tokens};
ghost use Rattle.odb_monitor.specs.Represented.Members.{AreRows};
ghost use Rattle.odb_monitor.specs.Represented.Sides.{line_at, sides_in};
ghost use Rattle.odb_request.specs.Represented.Notation.{notation_of};

use crate::comparison::Comparison;
use crate::layout::Layout;
use crate::sides::Sides;
use json::Token;
use odb_print::Printer;
use odb_request::Notation;
use std::alloc::{AllocError, Global};
use std::marker::Model;

/// The rows of a table of a job of which something may be shown, in the order in which they are printed.
#[derive(Drop)]
pub struct Listing<'r> {
    comparison: Comparison<'r>,
    notation: Notation,
    sides: Vec<Sides<'r>>,
}

impl<'r> Model for Listing<'r> {
    ghost use Rattle.odb_monitor.specs.Listing as model;
    ghost use Rattle.odb_monitor.specs.Represented.Listing.{listing_code, listing_in};
    ghost use Rattle.odb_request.specs.Represented.Notation.{notation_of};

    ghost Value = { model.Listing };

    ghost coded = { listing_code };

    ghost view = { λ l. listing_in (notation_of l.notation) l.comparison l.sides.items };
}

impl<'r> Listing<'r> {
    /// Puts together by what rows are compared, how they are printed, and the rows. O(1).
    pub(crate) fn new(
        comparison: Comparison<'r>,
        notation: Notation,
        sides: Vec<Sides<'r>>,
    ) -> Listing<'r>
        ensures { result ≡ listing_in (notation_of notation) comparison.entry sides.entry.items }
    {
        Listing {
            comparison,
            notation,
            sides,
        }
    }

    /// Returns how many rows are listed. O(1).
    pub fn len(&self) -> usize
        ensures { result ≡ length self.now.rows }
    {
        self.sides.len()
    }

    /// Returns whether no row is listed. O(1).
    pub fn is_empty(&self) -> bool {
        self.sides.is_empty()
    }

    /// Prints the rows from this place on, so many or as many as there are, with commas between them. O(the bytes printed,
    /// and the values compared), and what `Filter::holds` costs for each of them.
    pub fn piece(&self, alloc: Global, first: usize, count: usize) -> Result<Vec<u8>, AllocError>
        ensures { IfOk result (λ text. text.items ≡ rows_text (take count (drop first self.now.rows))) }
    {
        let sides = between(self.sides.as_slice(), first, count);
        let shape = self.comparison.request.shape();
        let layout = Layout::of(alloc, shape, self.notation, self.comparison.first);
        let mut out = Printer::new(alloc);
        let put = put_sides(&self.comparison, &layout, sides, &mut out);
        drop(layout);
        put?;
        Ok(out.finish())
    }

    /// Prints the table's name and the bracket after it.
    pub(crate) fn head(&self, alloc: Global) -> Result<Vec<u8>, AllocError>
        ensures text { IfOk result (λ text. text.items ≡ print (key self.now.name ∷ begin_object ∷ [])) }
        ensures rows { AreRows self.now.rows }
    {
        let mut out = Printer::new(alloc);
        out.put(Token::Key(self.comparison.request.shape().table_schema().name()))?;
        out.put(Token::BeginObject)?;
        Ok(out.finish())
    }
}

/// Returns the rows from this place on, so many or as many as there are. O(1).
fn between<'s, 'r>(sides: &'s [Sides<'r>], first: usize, count: usize) -> &'s [Sides<'r>]
    ensures { result.now ≡ take count (drop first sides.now) }
{
    let (_, rest) = sides.split_at(first.min(sides.len()));
    let (piece, _) = rest.split_at(count.min(rest.len()));
    piece
}

/// Prints what is shown of the rows, one after the other.
fn put_sides(
    comparison: &Comparison<'_>,
    layout: &Layout<'_>,
    sides: &[Sides<'_>],
    out: &mut Printer,
) -> Result<(), AllocError>
    requires { layout.now.columns ≡ comparison.now.request.now.shape.columns }
    ensures { OnOk result (out.new ≡ out.old
        ++ flat_map (side_tokens layout.now comparison.now) sides.now) }
{
    for row in sides {
        put_side(comparison, layout, row, out)?;
    }
    Ok(())
}

/// Prints what is shown of a row.
fn put_side(
    comparison: &Comparison<'_>,
    layout: &Layout<'_>,
    row: &Sides<'_>,
    out: &mut Printer,
) -> Result<(), AllocError>
    requires { layout.now.columns ≡ comparison.now.request.now.shape.columns }
    ensures { OnOk result (out.new ≡ out.old ++ side_tokens layout.now comparison.now row.now) }
{
    match comparison.line(row) {
        Some(line) => layout.put_row(out, &line),
        None => Ok(()),
    }
}

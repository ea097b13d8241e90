ghost use Rattle.std.specs.Prelude.{◌≡◌, find};
ghost use Rattle.sr_shadow.specs.Plan.{row_plan, is_free};
ghost use Rattle.sr_base.specs.declared.place.Place.TheVariants.{Row};

use crate::slots::is_free;
use sr_base::{Key, Layout, Place};
use sr_shadow::{IndexedBook, Plan, key_rows};

// The first row of the key's group that nobody holds.
pub(crate) fn first_row(indexed: &IndexedBook, layout: &Layout, key: Key) -> Option<Plan>
    ensures { result ≡ row_plan layout.now.shape indexed.now.book.entries key }
{
    let rows = key_rows(layout, key);
    match first_free_row(indexed, rows.as_slice()) {
        Some(row) => Some(Plan::FullKey { row }),
        None => None,
    }
}

// The first of these rows that nobody holds.
fn first_free_row(indexed: &IndexedBook, rows: &[u32]) -> Option<u32>
    ensures { result ≡ find (λ row. is_free indexed.now.book.entries (Row row)) rows.now }
{
    for row in rows {
        if is_free(indexed, Place::Row { row: *row }) {
            return Some(*row);
        }
    }
    None
}

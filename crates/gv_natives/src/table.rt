//! Tables of rows, no two of which agree.

ghost use Rattle.std.specs.Prelude.{◌≡◌, true, ◌<◌, Some, None, if◌then◌else◌, slice_get, position, map, length, IfSome};
ghost use Rattle.std.specs.List.{list_any};
ghost use Rattle.gv_natives.specs.Table as spec;
ghost use Rattle.gv_natives.specs.Table.{Method};

use crate::kinds::{ANY_ARITY, Kind, Row};
use gv_base::NativeId;
use std::marker::Model;

/// What is read as a row. Only `Row` is; the bound is there since the borrow checker covers no array
/// of references whose length is a parameter.
pub trait AsRow: Copy {
    ghost method: { Self → Method };

    fn as_row(&self) -> &Row
        ensures { spec.method_of result.now ≡ method self.now };
}

impl AsRow for Row {
    ghost method = { spec.method_of };

    fn as_row(&self) -> &Row {
        self
    }
}

fn answers(row: &Row, name: &str, kind: Kind, arity: u8) -> bool
    ensures { result ≡ spec.answers (spec.method_of row.now) name.now kind arity }
{
    row.name == name && row.kind == kind && row.arity == arity
}

fn agrees_with_one<R: AsRow>(row: &Row, mut rows: &[R]) -> bool
    ensures { result ≡ list_any (spec.agree (spec.method_of row.now)) (map R.method rows.entry.now) }
{
    while let [other, rest @ ..] = rows {
        let other = other.as_row();
        if answers(row, other.name, other.kind, other.arity) {
            return true;
        }
        rows = rest;
    }
    false
}

fn are_distinct<R: AsRow>(mut rows: &[R]) -> bool
    ensures { result ≡ spec.are_distinct (map R.method rows.entry.now) }
{
    while let [row, rest @ ..] = rows {
        if agrees_with_one(row.as_row(), rest) {
            return false;
        }
        rows = rest;
    }
    true
}

fn place_of<R: AsRow>(rows: &[R], name: &str, kind: Kind, arity: u8) -> Option<NativeId>
    ensures place { result ≡ position (λ m. spec.answers m name.now kind arity) (map R.method rows.now) }
    ensures within { IfSome result (λ id. id < length rows.now) }
{
    for (place, row) in rows.iter().enumerate() {
        if answers(row.as_row(), name, kind, arity) {
            return Some(place);
        }
    }
    None
}

/// `N` rows, no two of which agree in name, kind and arity.
#[derive(Drop)]
pub struct RowTable<R: AsRow, const N: usize> {
    pub(crate) rows: [R; N],
}

/// A table of `N` built-in methods.
pub type Table<const N: usize> = RowTable<Row, N>;

impl<R: AsRow, const N: usize> Model for RowTable<R, N> {
    ghost use Rattle.std.specs.Prelude.{List, ◌≡◌, true, map};
    ghost use Rattle.gv_natives.specs.Table.{are_distinct, Method};

    ghost Value = { List Method };

    ghost view = { λ table. map R.method table.rows };

    ghost invariant = { λ table. are_distinct (map R.method table.rows) ≡ true };
}

impl<R: AsRow, const N: usize> RowTable<R, N> {
    /// The table of these rows, or None where two of them agree.
    pub fn new(rows: [R; N]) -> Option<RowTable<R, N>>
        ensures { let methods = map R.method rows in
            result ≡ (if spec.are_distinct methods then Some methods else None) }
    {
        if are_distinct(&rows) {
            Some(RowTable { rows })
        } else {
            None
        }
    }

    /// The place of the row of this name and kind for so many arguments: the row of exactly this
    /// arity, else the row of any arity.
    pub fn find(&self, name: &str, kind: Kind, arity: u8) -> Option<NativeId>
        ensures found { result ≡ spec.found self.now name.now kind arity }
        ensures within { IfSome result (λ id. id < N) }
        ensures distinct { spec.are_distinct self.now ≡ true }
    {
        match place_of(&self.rows, name, kind, arity) {
            Some(place) => Some(place),
            None => place_of(&self.rows, name, kind, ANY_ARITY),
        }
    }

    /// The row at a place.
    pub fn row(&self, id: NativeId) -> &R
        requires { id < N }
        ensures { slice_get self.now id ≡ Some (R.method result.now) }
    {
        &self.rows[id]
    }
}

//! The plain index.
ghost use Rattle.std.specs.Prelude.{◌≡◌, ◌<◌, ◌≤◌, [], IfOk, OnOk, OnErr, IsSome, IsOk};
ghost use Rattle.ph_specs.specs.TableNames.{IsPoint, IsTable, find, put, del, window, is_between as lies_between, near};
ghost use Rattle.ph_table.specs.Hits.{hits_of};
ghost use Rattle.ph_table.specs.Rows.{wide, put_answer};

use crate::between::is_between;
use crate::hit::{Hit, hits_before};
use crate::place::place_of;
use ph_coord::{Point, Row, Width};
use ph_zorder::distance;
use std::alloc::{AllocError, Global};
use std::marker::Model;

/// What a put found at its point.
#[derive(Clone, Copy, Debug, PartialEq, Eq)]
pub enum Put {
    /// Nothing: the row is new.
    New,
    /// The former value.
    Old(u64),
}

/// Rows of one width in Z-order, no two at one point. It takes memory for its rows alone.
#[derive(Drop)]
pub struct Table<const D: usize> {
    width: Width,
    rows: Vec<Row<D>>,
}

impl<const D: usize> Model for Table<D> {
    ghost use Rattle.ph_specs.specs.TableNames.{IsTable};
    ghost use Rattle.ph_table.specs.Rows.{WideRows, wide};

    ghost Value = { WideRows };

    ghost view = { λ t. wide t.width t.rows.items };

    ghost invariant = { λ t. IsTable t.width D t.rows.items };
}

impl<const D: usize> Table<D> {
    /// The empty table of a width. It takes no memory.
    pub fn new(alloc: Global, w: Width) -> Table<D>
        ensures { result ≡ wide w [] }
    {
        Table {
            width: w,
            rows: Vec::new(alloc),
        }
    }

    /// The rows, in Z-order.
    pub fn rows(&self) -> &[Row<D>]
        ensures rows { result.now ≡ self.now.rows }
        ensures table { IsTable self.now.width D result.now }
    {
        &self.rows
    }

    /// The width of the points.
    pub fn width(&self) -> Width
        ensures { result ≡ self.now.width }
    {
        self.width
    }

    /// The value at a point, found in as many comparisons as the number of rows has binary digits.
    pub fn get(&self, p: &Point<D>) -> Option<u64>
        requires dims { D ≤ 16 }
        requires point { IsPoint self.now.width D p.now }
        ensures { result ≡ find self.now.rows p.now }
    {
        match place_of(self.width, &self.rows, p) {
            Ok(i) => Some(self.rows[i].value),
            Err(_) => None,
        }
    }

    /// The rows between two corners, both of them inside, in Z-order. It compares each row, and takes memory for those
    /// that it gives.
    pub fn window(
        &self,
        alloc: Global,
        lo: &Point<D>,
        hi: &Point<D>,
    ) -> Result<Vec<Row<D>>, AllocError>
        ensures { IfOk result (λ found. found.items ≡ window lo.now hi.now self.now.rows) }
    {
        self.rows
            .iter()
            .filter(
                |row| -> bool
                    ensures { result ≡ lies_between lo.entry.now hi.entry.now row.entry.now.now.point }
                { is_between(lo, hi, &row.point) },
            )
            .copied()
            .collect(alloc)
    }

    /// The first `n` rows by their distance from a point, and of equal distances in Z-order.
    ///
    /// It goes over all rows and keeps the nearest so far in order. It takes memory as these are found, and reserves none
    /// by `n`. Without memory it gives none of them.
    pub fn near(&self, alloc: Global, q: &Point<D>, n: u32) -> Result<Vec<Hit<D>>, AllocError>
        requires dims { D ≤ 16 }
        requires point { IsPoint self.now.width D q.now }
        ensures hits { IfOk result (λ hits. hits.items ≡ hits_of q.now (near q.now n self.now.rows)) }
        ensures none { n ≡ 0 → IsOk result }
    {
        let _bits = self.width.bits();
        let most = n as usize;
        let mut hits: Vec<Hit<D>> = Vec::new(alloc);
        for row in self.rows() {
            let hit = Hit {
                row: *row,
                distance: distance(&row.point, q),
            };
            let place = hits_before(&hits, hit.distance);
            if place < most {
                hits.insert(place, hit)?;
                hits.truncate(most);
            }
        }
        Ok(hits)
    }

    /// Takes the row at a point away, and gives its value. It takes no memory, and moves the rows behind.
    pub fn del(&mut self, p: &Point<D>) -> Option<u64>
        requires dims { D ≤ 16 }
        requires point { IsPoint self.old.width D p.now }
        ensures rows { self.new ≡ wide self.old.width (del self.old.rows p.now) }
        ensures value { result ≡ find self.old.rows p.now }
    {
        match place_of(self.width, &self.rows, p) {
            Ok(i) => {
                let row = self.rows.remove(i);
                Some(row.value)
            }
            Err(_) => None,
        }
    }

    /// Puts a value at a point, in place of the one that stands there.
    ///
    /// A new point takes memory for one row, and moves the rows behind it; without memory all stays.
    /// The place is found in as many comparisons as the number of rows has binary digits.
    pub fn put(&mut self, p: Point<D>, v: u64) -> Result<Put, AllocError>
        requires dims { D ≤ 16 }
        requires point { IsPoint self.old.width D p }
        ensures ok { OnOk result (self.new ≡ wide self.old.width (put self.old.width self.old.rows p.entry v)) }
        ensures answer { IfOk result (λ a. a ≡ put_answer (find self.old.rows p.entry)) }
        ensures present { IsSome (find self.old.rows p.entry) → IsOk result }
        ensures err { OnErr result (self.new ≡ self.old) }
    {
        let _bits = self.width.bits();
        let row = Row { point: p, value: v };
        match place_of(self.width, &self.rows, &p) {
            Ok(i) => {
                let old = self.rows[i].value;
                self.rows[i] = row;
                Ok(Put::Old(old))
            }
            Err(i) => {
                self.rows.insert(i, row)?;
                Ok(Put::New)
            }
        }
    }
}

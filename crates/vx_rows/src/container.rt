//! The row container: rows by number.
ghost use Rattle.std.specs.Prelude.{◌≡◌, ◌+◌, ◌*◌, ◌^◌, ◌≤◌, ◌<◌, ◌↔◌, None, true, [], length, slice_index_or, slice_set, All, IfOk, OnErr, OnOk, IfSome, IsTrue, is_some};
ghost use Rattle.std.specs.List.{filter, range_with_len, sum_by};
ghost use Rattle.std.specs.Int.{div_ceil};
ghost use Rattle.vx_arena.specs.Chunks.{held_by};
ghost use Rattle.vx_arena.specs.Names.{lives};
ghost use Rattle.vx_arena.specs.Text.{more};
ghost use Rattle.vx_records.specs.Record.{record_in};
ghost use Rattle.vx_vector.specs.Batch.{kinds_of, row_of};
ghost use Rattle.vx_rows.specs.Layout.{fields_of, row_len, rows_a_chunk};
ghost use Rattle.vx_rows.specs.Need.{need_of};
ghost use Rattle.vx_rows.specs.Texts.{blocks_of_value, text_cost};
ghost use Rattle.vx_value.specs.Value.{owned, IsLawful};
ghost use Rattle.vx_rows.specs.Container.{AddsRow, Changes, Gives, HasBytes, IsBytes, TakesValue, blocks_of_held, with_held, IsSlot, bytes, cell, held_at, key_values, IsLive, Takes, TakesBack, blocks_of_row, live, live_numbers, new_row, with_row};

use crate::body::{bytes_at, empty_body, field};
use crate::editing::put_in;
use crate::fields::Extra;
use crate::layout::Layout;
use crate::need;
use crate::texts::{cells, fill, give, is_stored, release, store, value};
use std::alloc::{AllocError, Global};
use std::marker::Model;
use vx_arena::Arena;
use vx_records::Records;
use vx_value::{Kind, Row, Value, ValueRef};
use vx_vector::Batch;

/// Rows by number, with their texts. A number that was erased is used again.
#[derive(Drop)]
pub struct RowContainer {
    layout: Layout,
    columns: u32,
    records: Records,
    arena: Arena,
    /// A body that stores nothing.
    empty: Vec<u8>,
    /// A body that is made before it is added.
    scratch: Vec<u8>,
}

impl Model for RowContainer {
    ghost use Rattle.vx_rows.specs.Container.{ContainerModel, IsContainer, extras_in, kinds_in, rows_in};

    ghost Value = { ContainerModel };

    ghost view = { λ c. record { kinds = kinds_in c.columns c.layout; extras = extras_in c.columns c.layout; rows = rows_in c.arena c.columns c.layout c.records.records; arena = c.arena } };

    ghost invariant = { λ c. IsContainer c.columns c.layout c.records c.arena c.empty.items c.scratch.items };
}

impl RowContainer {
    /// No rows, each to have these columns and these accumulators.
    pub fn new(alloc: Global, kinds: &[Kind], extras: &[Extra]) -> Result<RowContainer, AllocError>
        requires { row_len (fields_of kinds.now extras.now) ≤ 4096 }
        ensures { IfOk result (λ c. c ≡ record { kinds = kinds.now; extras = extras.now; rows = []; arena = record { chunks = []; taken = 0; given = 0 } }) }
    {
        let layout = Layout::new(alloc, kinds, extras)?;
        let records = Records::new(alloc, layout.bytes());
        let empty = empty_body(alloc, &layout)?;
        let scratch = empty_body(alloc, &layout)?;
        Ok(RowContainer {
            layout,
            columns: kinds.len() as u32,
            records,
            arena: Arena::new(alloc),
            empty,
            scratch,
        })
    }

    /// Adds a row of a batch, and answers its number.
    pub fn add(&mut self, batch: &Batch, row: u32) -> Result<u32, AllocError>
        requires kinds { kinds_of batch.now.columns ≡ self.old.kinds }
        requires row { row < batch.now.rows }
        ensures ok { IfOk result (λ number. AddsRow self.old.rows self.new.rows number (new_row self.old.extras (row_of batch.now.columns row))) }
        ensures there { IfOk result (λ number. IsLive self.new number) }
        ensures takes { IfOk result (λ _. Takes self.old.arena self.new.arena (blocks_of_row (new_row self.old.extras (row_of batch.now.columns row))) (sum_by text_cost (row_of batch.now.columns row))) }

        // After an error no row has changed, and what was taken was given back.
        ensures err { OnErr result (self.new.rows ≡ self.old.rows) }
        ensures back { OnErr result (TakesBack self.old.arena self.new.arena (sum_by text_cost (row_of batch.now.columns row))) }
        ensures kinds { self.new.kinds ≡ self.old.kinds }
        ensures extras { self.new.extras ≡ self.old.extras }
    {
        self.scratch.copy_from_slice(self.empty.as_slice());
        fill(
            &mut self.arena,
            &self.layout,
            self.scratch.as_mut_slice(),
            batch,
            row,
        )?;
        match self.records.add(self.scratch.as_slice()) {
            Ok(number) => Ok(number),
            Err(error) => {
                release(&mut self.arena, &self.layout, self.scratch.as_slice());
                Err(error)
            }
        }
    }

    /// Frees a row's number, and gives back its texts, those of slots too.
    pub fn erase(&mut self, row: u32)
        requires { IsLive self.old row }
        ensures rows { self.new.rows ≡ slice_set self.old.rows row None }
        ensures gives { Gives self.old.arena self.new.arena (blocks_of_row (live self.old row)) }
        ensures kinds { self.new.kinds ≡ self.old.kinds }
        ensures extras { self.new.extras ≡ self.old.extras }
    {
        release(&mut self.arena, &self.layout, self.records.body(row));
        self.records.erase(row);
    }

    /// Frees all rows and all chunks.
    pub fn clear(&mut self)
        ensures { self.new ≡ record { kinds = self.old.kinds; extras = self.old.extras; rows = []; arena = record { chunks = []; taken = self.old.arena.taken; given = more self.old.arena.given (lives self.old.arena.chunks) } } }
    {
        self.records.clear();
        self.arena.clear();
    }

    /// How many bytes its chunks have together, of rows and of texts.
    pub fn bytes_held(&self) -> u64
        ensures { result ≡ 4096 * div_ceil (length self.now.rows) (rows_a_chunk (fields_of self.now.kinds self.now.extras)) + held_by self.now.arena.chunks }
    {
        let (_columns, _numbers) = (&self.columns, self.records.numbers());
        self.records.held() + self.arena.held()
    }

    /// How many bytes a row has, with its head.
    #[inline]
    pub fn row_bytes(&self) -> u32
        ensures is { result ≡ row_len (fields_of self.now.kinds self.now.extras) }
        ensures most { result ≤ 4096 }
    {
        let _columns = &self.columns;
        8 + self.layout.bytes()
    }

    /// How many bytes of chunks a put of all rows of a batch takes at most.
    pub fn need_of(&self, batch: &Batch) -> u64
        requires { kinds_of batch.now.columns ≡ self.now.kinds }
        ensures { result ≡ need_of (fields_of self.now.kinds self.now.extras) batch.now.columns batch.now.rows }
    {
        let _columns = &self.columns;
        need::need_of(&self.layout, batch)
    }

    /// Its texts.
    pub fn arena(&self) -> &Arena
        ensures { result.now ≡ self.now.arena }
    {
        &self.arena
    }

    /// Whether a row has this number: what the calls on one row ask for.
    #[inline]
    pub fn is_live(&self, row: u32) -> bool
        ensures { IsTrue result ↔ IsLive self.now row }
    {
        let _columns = &self.columns;
        self.records.is_live(row)
    }

    /// The number that a row leads to.
    #[inline]
    pub fn next(&self, row: u32) -> Option<u32>
        requires { IsLive self.now row }
        ensures is { result ≡ (live self.now row).next }
        ensures fits { IfSome result (λ next. next + 1 < 2 ^ 32) }
    {
        let _columns = &self.columns;
        self.records.next(row)
    }

    /// Lets a row lead to this number, or to none.
    #[inline]
    pub fn set_next(&mut self, row: u32, next: Option<u32>)
        requires live { IsLive self.old row }
        requires fits { IfSome next (λ next. next + 1 < 2 ^ 32) }
        ensures set { self.new ≡ record self.old { rows = with_row self.old row (record (live self.old row) { next = next }) } }
        ensures there { IsLive self.new row }
    {
        let _columns = &self.columns;
        self.records.set_next(row, next);
    }

    /// Whether a row is matched.
    #[inline]
    pub fn matched(&self, row: u32) -> bool
        requires { IsLive self.now row }
        ensures { result ≡ (live self.now row).matched }
    {
        let _columns = &self.columns;
        self.records.matched(row)
    }

    /// Marks a row as matched.
    #[inline]
    pub fn set_matched(&mut self, row: u32)
        requires { IsLive self.old row }
        ensures set { self.new ≡ record self.old { rows = with_row self.old row (record (live self.old row) { matched = true }) } }
        ensures there { IsLive self.new row }
    {
        let _columns = &self.columns;
        self.records.set_matched(row);
    }

    /// The values of a row's columns.
    pub fn get(&self, alloc: Global, row: u32) -> Result<Row, AllocError>
        requires { IsLive self.now row }
        ensures { IfOk result (λ cells. cells ≡ (live self.now row).cells) }
    {
        let body = self.records.body(row);
        cells(alloc, &self.arena, &self.layout, body, self.columns)
    }

    /// Whether a row's `columns` have the values that the columns `of` have in a row of a batch.
    pub fn key_equals(&self, row: u32, columns: &[u32], batch: &Batch, at: u32, of: &[u32]) -> bool
        requires live { IsLive self.now row }
        requires at { at < batch.now.rows }
        requires many { length columns.now ≡ length of.now }
        requires columns { All (λ c. c < length self.now.kinds) columns.now }
        requires of { All (λ c. c < length batch.now.columns) of.now }
        ensures { IsTrue result ↔ (key_values columns.now (live self.now row).cells ≡ key_values of.now (row_of batch.now.columns at)) }
    {
        let body = self.records.body(row);
        for place in 0..columns.len() {
            let stored = field(body, &self.layout, columns[place]);
            let value = batch.columns[of[place] as usize].get(at);
            if !is_stored(&self.arena, stored, value) {
                return false;
            }
        }
        true
    }

    /// The bytes of an accumulator.
    #[inline]
    pub fn extra(&self, row: u32, which: u32) -> &[u8]
        requires live { IsLive self.now row }
        requires bytes { IsBytes self.now.extras which }
        ensures { held_at (live self.now row) which ≡ bytes result.now }
    {
        let _count = self.layout.count();
        bytes_at(self.records.body(row), &self.layout, self.columns + which)
    }

    /// The cell of an accumulator.
    pub fn slot(&self, alloc: Global, row: u32, which: u32) -> Result<Value, AllocError>
        requires live { IsLive self.now row }
        requires slot { IsSlot self.now.extras which }
        ensures { IfOk result (λ value. held_at (live self.now row) which ≡ cell value) }
    {
        let _count = self.layout.count();
        let stored = field(self.records.body(row), &self.layout, self.columns + which);
        value(alloc, &self.arena, stored)
    }

    /// Puts these bytes into an accumulator.
    #[inline]
    pub fn set_extra(&mut self, row: u32, which: u32, from: &[u8])
        requires live { IsLive self.old row }
        requires bytes { HasBytes self.old.extras which (length from.now) }
        ensures set { self.new ≡ record self.old { rows = with_row self.old row (with_held (live self.old row) which (bytes from.now)) } }
        ensures there { IsLive self.new row }
    {
        let (_count, _body) = (self.layout.count(), self.records.body(row));
        let at = self.layout.at(self.columns + which);
        self.records.write(row, at, from);
    }

    /// Puts this value into an accumulator's cell. An old text is given back after the new one was taken.
    pub fn set_slot(&mut self, row: u32, which: u32, value: ValueRef<'_>) -> Result<(), AllocError>
        requires live { IsLive self.old row }
        requires kind { TakesValue (slice_index_or self.old.extras which (Extra.Bytes 0)) (owned value) }
        requires lawful { IsLawful (owned value) }
        ensures ok { OnOk result (self.new.rows ≡ with_row self.old row (with_held (live self.old row) which (cell (owned value.entry)))) }
        ensures changes { OnOk result (Changes self.old.arena self.new.arena (blocks_of_value (owned value.entry)) (blocks_of_held (held_at (live self.old row) which)) (text_cost (owned value.entry))) }

        ensures there { OnOk result (IsLive self.new row) }

        // After an error no row has changed, and what was taken was given back.
        ensures err { OnErr result (self.new.rows ≡ self.old.rows) }
        ensures back { OnErr result (TakesBack self.old.arena self.new.arena (text_cost (owned value.entry))) }
        ensures kinds { self.new.kinds ≡ self.old.kinds }
        ensures extras { self.new.extras ≡ self.old.extras }
    {
        let _count = self.layout.count();
        let place = self.columns + which;
        let stored = store(&mut self.arena, value)?;
        let old = field(self.records.body(row), &self.layout, place);
        give(&mut self.arena, old);
        put_in(&mut self.records, &self.layout, row, place, stored);
        Ok(())
    }

    /// The numbers of all rows, ascending.
    pub fn live(&self, alloc: Global) -> Result<Vec<u32>, AllocError>
        ensures { IfOk result (λ numbers. numbers.items ≡ live_numbers self.now.rows) }
    {
        let _columns = &self.columns;
        live_records(alloc, &self.records)
    }
}

/// The numbers of all records, ascending.
fn live_records(alloc: Global, records: &Records) -> Result<Vec<u32>, AllocError>
    ensures { IfOk result (λ numbers. numbers.items ≡ filter (λ n. is_some (record_in records.now n)) (range_with_len 0 (length records.now.records))) }
{
    let mut numbers = Vec::new(alloc);
    for number in 0..records.numbers() {
        if records.is_live(number) {
            numbers.push(number)?;
        }
    }
    Ok(numbers)
}

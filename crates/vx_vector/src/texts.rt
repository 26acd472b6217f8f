//! Texts of a column in one buffer.
ghost use Rattle.std.specs.Prelude.{◌≡◌, ◌<◌, ◌≤◌, ◌+◌, [], ◌∷◌, ◌++◌, length, map, All, OnOk, OnErr, IfOk};
ghost use Rattle.vx_value.specs.Value.{IsText};
ghost use Rattle.vx_vector.specs.Place.{place_from, settled_place};
ghost use Rattle.vx_vector.specs.Index.{IsIn, item_or};
ghost use Rattle.vx_vector.specs.Lane.{TextRow, text_row, text_at, settled_row};
ghost use Rattle.vx_vector.specs.Marks.{is_fault};
ghost use Rattle.vx_vector.specs.declared.texts.Place.{Place};
ghost use Rattle.std.specs.List.{list_any};

use crate::lanes::{FINE, FIRST_FAULT};
use crate::marks::settled;
use std::alloc::{AllocError, Global};
use std::marker::Model;

/// Where a row's text lies in the buffer, and the row's mark.
#[derive(Clone, Copy, Debug)]
struct Place {
    start: u32,
    end: u32,
    mark: u8,
}

/// Texts with a mark each, in one buffer.
#[derive(Debug, Drop)]
pub struct Texts {
    bytes: Vec<u8>,
    places: Vec<Place>,
}

impl Model for Texts {
    ghost use Rattle.std.specs.Prelude.{List, All, map};
    ghost use Rattle.vx_vector.specs.Lane.{TextRow};
    ghost use Rattle.vx_vector.specs.Place.{row_of, IsPlaced};

    ghost Value = { List TextRow };

    ghost view = { λ t. map (row_of t.bytes.items) t.places.items };

    ghost invariant = { λ t. All (IsPlaced t.bytes.items) t.places.items };
}

impl Texts {
    /// No texts.
    pub fn new(alloc: Global) -> Texts
        ensures { result ≡ [] }
    {
        Texts {
            bytes: Vec::new(alloc),
            places: Vec::new(alloc),
        }
    }

    /// No texts, with room for so many rows and so many bytes of texts.
    pub fn with_room(alloc: Global, rows: usize, bytes: usize) -> Result<Texts, AllocError>
        ensures { IfOk result (λ t. t ≡ []) }
    {
        Ok(Texts {
            bytes: Vec::with_capacity(alloc, bytes)?,
            places: Vec::with_capacity(alloc, rows)?,
        })
    }

    /// No texts, with room for as many rows as `a` has and for the bytes of both.
    pub fn with_room_of(alloc: Global, a: &Texts, b: &Texts) -> Result<Texts, AllocError>
        ensures { IfOk result (λ t. t ≡ []) }
    {
        let bytes = a.bytes.len().saturating_add(b.bytes.len());
        Texts::with_room(alloc, a.len(), bytes)
    }

    /// The number of rows.
    #[inline(always)]
    pub fn len(&self) -> usize
        ensures { result ≡ length self.now }
    {
        self.places.len()
    }

    /// The mark of a row.
    #[inline(always)]
    pub fn mark(&self, row: usize) -> u8
        requires { row < length self.now }
        ensures { result ≡ (text_at self.now row).mark }
    {
        self.places[row].mark
    }

    /// The text that stands at a row, whatever its mark.
    #[inline(always)]
    pub fn get(&self, row: usize) -> &[u8]
        requires { row < length self.now }
        ensures text { result.now ≡ (text_at self.now row).text }
        ensures lawful { IsText result.now }
    {
        let place = self.places[row];
        &self.bytes[place.start as usize..place.end as usize]
    }

    /// Whether a row has a mark that is neither that of a fine row nor that of a null.
    pub(crate) fn has_fault(&self) -> bool
        ensures { result ≡ list_any (λ (r : TextRow). is_fault r.mark) self.now }
    {
        place_has_fault(self.places.as_slice())
    }

    /// Adds a row. More than 4 GiB of texts count as out of memory.
    pub fn push(&mut self, mark: u8, text: &[u8]) -> Result<(), AllocError>
        requires { IsText text.now }
        ensures ok { OnOk result (self.new ≡ self.old ++ text_row mark text.now ∷ []) }
        ensures err { OnErr result (self.new ≡ self.old) }
    {
        let place = place_behind(&self.bytes, text.len(), mark)?;
        self.bytes.extend_from_slice(text)?;
        self.places.push(place)?;
        Ok(())
    }

    /// Adds a fine row of two texts in one. More than 4 GiB of texts count as out of memory.
    pub fn push_joined(&mut self, a: &[u8], b: &[u8]) -> Result<(), AllocError>
        requires left { IsText a.now }
        requires right { IsText b.now }
        requires short { length a.now + length b.now ≤ 65535 }
        ensures ok { OnOk result (self.new ≡ self.old ++ text_row 0 (a.now ++ b.now) ∷ []) }
        ensures err { OnErr result (self.new ≡ self.old) }
    {
        let place = place_behind(&self.bytes, a.len() + b.len(), FINE)?;
        self.bytes.extend_from_slice(a)?;
        self.bytes.extend_from_slice(b)?;
        self.places.push(place)?;
        Ok(())
    }

    /// The same rows, in memory of their own.
    pub fn copy(&self, alloc: Global) -> Result<Texts, AllocError>
        ensures { IfOk result (λ t. t ≡ self.now) }
    {
        Ok(Texts {
            bytes: Vec::from_slice(alloc, self.bytes.as_slice())?,
            places: Vec::from_slice(alloc, self.places.as_slice())?,
        })
    }

    /// The rows at these places, in their order.
    pub fn gather(&self, alloc: Global, places: &[u32]) -> Result<Texts, AllocError>
        requires { All (λ p. p < length self.now) places.now }
        ensures { IfOk result (λ t. t ≡ map (text_at self.now) places.now) }
    {
        let mut picked = Texts::with_room(alloc, places.len(), 0)?;
        for place in places {
            let row = *place as usize;
            picked.push(self.mark(row), self.get(row))?;
        }
        Ok(picked)
    }

    /// The rows at these places, and nulls where there is no place.
    pub fn spread(&self, alloc: Global, index: &[Option<u32>]) -> Result<Texts, AllocError>
        requires { All (IsIn (length self.now)) index.now }
        ensures { IfOk result (λ t. t ≡ map (item_or self.now (text_row 1 [])) index.now) }
    {
        let mut picked = Texts::with_room(alloc, index.len(), 0)?;
        for place in index {
            match *place {
                Some(row) => picked.push(self.mark(row as usize), self.get(row as usize))?,
                None => picked.push(1, &[])?,
            }
        }
        Ok(picked)
    }

    /// Turns each mark but that of a fine row into that of a null.
    pub fn settle(&mut self)
        ensures { self.new ≡ map settled_row self.old }
    {
        settle_places(&mut self.places);
    }
}

fn place_has_fault(places: &[Place]) -> bool
    ensures { result ≡ list_any (λ (p : Place). is_fault p.mark) places.now }
{
    for place in places {
        if place.mark >= FIRST_FAULT {
            return true;
        }
    }
    false
}

#[tactic(auto, using(std::proofs::lemmas::List::Edits::map_over_more))]
fn settle_places(places: &mut Vec<Place>)
    ensures { places.new.items ≡ map settled_place places.old.items }
{
    for place in places.iter_mut() {
        place.mark = settled(place.mark);
    }
}

/// The place of a text that is put behind these bytes.
#[inline(always)]
fn place_behind(bytes: &Vec<u8>, len: usize, mark: u8) -> Result<Place, AllocError>
    requires { len ≤ 65535 }
    ensures { IfOk result (λ place. place ≡ place_from (length bytes.now.items) len mark) }
{
    let start = bytes.len();
    let end = u32::try_from(start + len).map_err(|_| AllocError)?;
    Ok(Place {
        start: start as u32,
        end,
        mark,
    })
}

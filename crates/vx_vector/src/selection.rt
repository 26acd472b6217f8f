//! Rows of a batch, by their places in ascending order.
ghost use Rattle.std.specs.Prelude.{◌≡◌, ◌↔◌, ℕ, ◌<◌, length, get_or, IsTrue, IfOk};
ghost use Rattle.std.specs.List.{range_with_len};
ghost use Rattle.vx_vector.specs.Selection.{ascends};

use crate::places::are_first_places;
use std::alloc::{AllocError, Global};
use std::marker::Model;

/// Rows of a batch, by their places in ascending order.
#[derive(Debug, Drop)]
pub struct Selection {
    places: Vec<u32>,
    whole: bool,
}

impl Model for Selection {
    ghost use Rattle.std.specs.Prelude.{ℕ, List};
    ghost use Rattle.std.specs.Coded.{coded_list, coded_ℕ};
    ghost use Rattle.vx_vector.specs.Selection.{IsSelection};

    ghost Value = { List ℕ };

    ghost coded = { coded_list coded_ℕ };

    ghost view = { λ s. s.places.items };

    ghost invariant = { λ s. IsSelection s.whole s.places.items };
}

impl Selection {
    /// The rows at these places.
    pub fn of(alloc: Global, places: &[u32]) -> Result<Selection, AllocError>
        requires { IsTrue (ascends places.now) }
        ensures { IfOk result (λ s. s ≡ places.now) }
    {
        Ok(Selection {
            whole: are_first_places(places),
            places: Vec::from_slice(alloc, places)?,
        })
    }

    /// The first so many rows.
    pub fn first(alloc: Global, rows: u32) -> Result<Selection, AllocError>
        ensures { IfOk result (λ s. s ≡ range_with_len 0 rows) }
    {
        let mut places = Vec::with_capacity(alloc, rows as usize)?;
        for place in 0..rows {
            places.push(place)?;
        }
        Ok(Selection {
            places,
            whole: true,
        })
    }

    /// The places, in ascending order.
    #[inline(always)]
    pub fn places(&self) -> &[u32]
        ensures places { result.now ≡ self.now }
        ensures ascends { IsTrue (ascends result.now) }
    {
        let _whole = self.whole;
        self.places.as_slice()
    }

    /// Whether each place is its own number, as in the first so many rows.
    #[inline(always)]
    pub fn is_whole(&self) -> bool
        ensures whole { IsTrue result ↔ (self.now ≡ range_with_len 0 (length self.now)) }
        ensures each { IsTrue result → (k : ℕ) → k < length self.now → get_or self.now k 0 ≡ k }
    {
        self.whole
    }
}

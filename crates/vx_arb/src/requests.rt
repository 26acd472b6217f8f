//! A request for capacity, in the hands of the one who begun it.
ghost use Rattle.std.specs.Prelude.{◌≡◌, ◌-◌, ◌<◌, ◌^◌, false, [], length, IfOk};
ghost use Rattle.vx_arb.specs.Books.{has_look, after_look, after_move};
ghost use Rattle.vx_arb.specs.Unmet.{AreSingle};

use crate::sights::seat_of;
use crate::{Look, Looks, Standing};
use std::alloc::{AllocError, Global};
use std::marker::Model;

/// A request. `Arb::begin_request` alone makes one, and it ends with a grant, an abort or a drop.
#[derive(Debug, Drop)]
pub struct Request {
    number: u64,
    job: u32,
    need: u64,
    would: u64,
    looks: Vec<Look>,
    left: u64,
    // For how many further looks the list has room.
    room: u64,
}

impl Model for Request {
    ghost use Rattle.vx_arb.specs.Books.{Asked};

    ghost Value = { Asked };

    ghost use Rattle.std.specs.Prelude.{◌<◌, ◌^◌, length, vec_capacity};
    ghost use Rattle.vx_arb.specs.Keeping.{IsRequest};

    ghost view = { λ request. record {
      number = request.number;
      job = request.job;
      need = request.need;
      would = request.would;
      looks = request.looks.items;
      left = request.left;
      room = request.room;
    } };

    ghost invariant = { λ request. IsRequest request.looks.items request.room (vec_capacity request.looks) };
}

impl Request {
    pub(crate) fn begin(alloc: Global, standing: Standing, room: usize) -> Result<Self, AllocError>
        requires { room < 2 ^ 32 }
        ensures { IfOk result (λ request. request ≡ record {
          number = standing.number;
          job = standing.job;
          need = standing.need;
          would = standing.would;
          looks = [];
          left = standing.left;
          room = room;
        }) }
    {
        Ok(Request {
            number: standing.number,
            job: standing.job,
            need: standing.need,
            would: standing.would,
            looks: Vec::with_capacity(alloc, room)?,
            left: standing.left,
            room: room as u64,
        })
    }

    // Counts one shrink or reclaim.
    pub(crate) fn spend(&mut self)
        requires { 0 < self.old.left }
        ensures { self.new ≡ after_move self.old }
    {
        self.left -= 1;
    }

    // Adds a look, or puts it in the place of that of its job.
    pub(crate) fn put(&mut self, look: Look)
        requires { has_look self.old.looks look.job ≡ false → 0 < self.old.room }
        ensures { self.new ≡ after_look self.old look }
    {
        match seat_of(&self.looks, look.job) {
            Some(place) => self.looks[place] = look,
            None => {
                self.looks.push_reserved(look);
                self.room -= 1;
            }
        }
    }

    pub(crate) fn into_looks(self) -> Looks
        ensures { result ≡ self.looks }
    {
        Looks::from_vec(self.looks)
    }

    /// Requests are numbered from 1 in order of beginning.
    pub fn number(&self) -> u64
        ensures { result ≡ self.now.number }
    {
        self.number
    }

    /// The job that lacks capacity.
    pub fn job(&self) -> u32
        ensures { result ≡ self.now.job }
    {
        self.job
    }

    /// What the job lacks.
    pub fn need(&self) -> u64
        ensures { result ≡ self.now.need }
    {
        self.need
    }

    /// The capacity that the job would have.
    pub fn would(&self) -> u64
        ensures { result ≡ self.now.would }
    {
        self.would
    }

    /// The looks so far, one a job at most.
    pub fn looks(&self) -> &[Look]
        ensures is { result.now ≡ self.now.looks }
        ensures single { AreSingle result.now }
        ensures few { length result.now < 2 ^ 32 }
    {
        &self.looks
    }

    /// How many more shrinks and reclaims the request may make.
    pub fn left(&self) -> u64
        ensures { result ≡ self.now.left }
    {
        self.left
    }

    /// For how many further looks there is room.
    pub fn room(&self) -> u64
        ensures { result ≡ self.now.room }
    {
        self.room
    }
}

/// Why a request isn't granted: it needs more than what is free. The request goes on.
#[derive(Debug, Drop)]
pub struct Lacking {
    pub need: u64,
    pub free: u64,
    pub request: Request,
}

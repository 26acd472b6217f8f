//! A board and its seats.
ghost use Rattle.std.specs.Prelude.{◌≡◌, ◌<◌, ◌≤◌, IfOk};
ghost use Rattle.vx_board.specs.Seats.{IsSeatOf, NoneTwice, Claims, Posts, Sees, terms_of, first_view, undrawn, together};
ghost use Rattle.vx_board.specs.BoardRule.{claim_word, peak_word};

use crate::law::{Alike, BoardRule, Claim, Look, Peek, Post, Together};
use crate::view::{Terms, View};
use atomic_table::Table;
use std::alloc::{AllocError, Global};
use std::marker::Model;

/// A claim word and a peak word for each job. Threads share it by reference.
#[derive(Drop)]
pub struct Board {
    table: Table<(), View, Terms, BoardRule, Global>,
}

impl Model for Board {
    ghost use Rattle.vx_board.specs.Seats.{Size};

    ghost Value = { Size };

    ghost use Rattle.vx_board.specs.BoardFields.{size_of, IsSized};

    ghost view = { size_of };

    ghost invariant = { IsSized };
}

/// What a thread steps with on a board, and what it knows of it. It has no bytes.
#[derive(Drop)]
pub struct Seat {
    token: atomic_table::Seat<(), View>,
}

impl Model for Seat {
    ghost use Rattle.vx_board.specs.Seats.{Known};

    ghost Value = { Known };

    ghost use Rattle.vx_board.specs.SeatFields.{known_of, HasNoSlots};

    ghost view = { known_of };

    ghost invariant = { HasNoSlots };
}

impl Board {
    /// A board on which no job is claimed and every peak is 0, with its first seat.
    pub fn new(alloc: Global, jobs: u32, total: u64) -> Result<(Board, Seat), AllocError>
        requires { 0 < jobs }
        ensures terms { IfOk result (λ made. made.0.terms ≡ terms_of jobs total) }
        ensures seat { IfOk result (λ made. made.1.view ≡ first_view made.0.terms) }
        ensures own { IfOk result (λ made. IsSeatOf made.0 made.1) }
    {
        let terms = Terms { jobs, total };
        let words = vec![in alloc; 0; 2 * jobs as usize]?;
        let (table, token) = Table::of_words(alloc, words.as_slice(), &terms)?;
        Ok((Board { table }, Seat { token }))
    }

    /// Claims a job: true where nobody had claimed it, and then this seat has drawn it.
    pub fn claim(&self, seat: &mut Seat, job: u32) -> bool
        requires seat { IsSeatOf self.now seat.old }
        requires job { job < self.now.terms.jobs }
        ensures claim { Claims seat.old.view job result seat.new.view }
        ensures own { IsSeatOf self.now seat.new }
    {
        let words = &self.table.shared;
        let found = words.swap::<Claim>(&mut seat.token, claim_at(job), 1);
        found == 0
    }

    /// Raises a job's peak to at least `peak` bytes.
    pub fn post(&self, seat: &mut Seat, job: u32, peak: u64)
        requires seat { IsSeatOf self.now seat.old }
        requires job { job < self.now.terms.jobs }
        requires peak { peak ≤ self.now.terms.total }
        ensures post { Posts seat.old.view job peak seat.new.view }
        ensures own { IsSeatOf self.now seat.new }
    {
        let words = &self.table.shared;
        words.fetch_max::<Post>(&mut seat.token, peak_at(job), peak);
    }

    /// A job's peak in bytes: at most the total, and at least all that this seat posted or saw of it.
    pub fn peek(&self, seat: &mut Seat, job: u32) -> u64
        requires seat { IsSeatOf self.now seat.old }
        requires job { job < self.now.terms.jobs }
        ensures peek { Sees seat.old.view job result seat.new.view }
        ensures own { IsSeatOf self.now seat.new }
    {
        let words = &self.table.shared;
        words.load::<Peek>(&mut seat.token, peak_at(job))
    }

    /// A second seat that has seen the same and has drawn nothing.
    pub fn split(&self, seat: &mut Seat) -> Seat
        requires { IsSeatOf self.now seat.old }
        ensures given { result.view ≡ undrawn seat.old.view }
        ensures kept { seat.new ≡ seat.old }
        ensures own { IsSeatOf self.now result }
    {
        let words = &self.table.shared;
        let token = words.split_seat::<Alike>(&mut seat.token);
        Seat { token }
    }

    /// Lets the seat know what the other has drawn and seen. No job stands among both twice.
    pub fn join(&self, seat: &mut Seat, other: Seat)
        requires seat { IsSeatOf self.now seat.old }
        requires other { IsSeatOf self.now other }
        ensures joined { seat.new.view ≡ together seat.old.view other.view }
        ensures once { NoneTwice seat.new.view.drawn }
        ensures own { IsSeatOf self.now seat.new }
    {
        let words = &self.table.shared;
        words.join_seat::<Together>(&mut seat.token, other.token);
        words.load::<Look>(&mut seat.token, 0);
    }
}

fn claim_at(job: u32) -> usize
    ensures { result ≡ claim_word job }
{
    2 * job as usize
}

fn peak_at(job: u32) -> usize
    ensures { result ≡ peak_word job }
{
    2 * job as usize + 1
}

//! The rule of a board, and its kinds of step. No value of these types is made.
ghost use Rattle.vx_board.specs.Seats.{first_view, spent, undrawn, together};
ghost use Rattle.vx_board.specs.BoardRule.{KeepsBoard};
ghost use Rattle.vx_board.specs.Kinds.{claimed, posted, peeked, looked};

use crate::view::{Terms, View};
use atomic_table::{Join, Play, Split, TableRule};

/// The rule of a board's words and of the views of all its seats.
pub struct BoardRule;

impl TableRule<(), View, Terms> for BoardRule {
    ghost holds = { λ terms state. KeepsBoard terms state.words state.views };

    ghost first = { first_view };
}

/// One swap of 1 on a job's claim word.
pub struct Claim;

impl Play<(), View> for Claim {
    ghost then = { claimed };
}

/// One `fetch_max` on a job's peak word.
pub struct Post;

impl Play<(), View> for Post {
    ghost then = { posted };
}

/// One load of a job's peak word.
pub struct Peek;

impl Play<(), View> for Peek {
    ghost then = { peeked };
}

/// One load that changes nothing and tells that no job was drawn twice.
pub struct Look;

impl Play<(), View> for Look {
    ghost then = { looked };
}

/// A second seat that has seen the same.
pub struct Alike;

impl Split<View> for Alike {
    ghost left = { λ view. view };

    ghost right = { undrawn };
}

/// What two seats know, in one.
pub struct Together;

impl Join<View> for Together {
    ghost both = { together };

    ghost spent = { spent };
}

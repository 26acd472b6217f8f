//! The rule of the accounts, and their kinds of step. No value of these types is made.
ghost use Rattle.vx_account.specs.Holders.{first_view, spent, asking, set_book, set_part, without_asked, asked_alone, together};
ghost use Rattle.vx_account.specs.AccountRule.{KeepsAccounts};
ghost use Rattle.vx_account.specs.Kinds.{changed, looked};

use crate::view::{Slip, View};
use atomic_table::{Join, Play, Split, TableRule};

/// The rule of the accounts' word and of the views of all holders.
pub struct AccountRule;

impl TableRule<Slip, View, u32> for AccountRule {
    ghost holds = { λ accounts state. KeepsAccounts accounts state.words state.views };

    ghost first = { first_view };
}

/// A load that says which account's part is to be moved.
pub struct Ask;

impl Play<Slip, View> for Ask {
    ghost then = { changed asking };
}

/// A load that sets the amounts of an account's book and part.
pub struct Set;

impl Play<Slip, View> for Set {
    ghost then = { changed (λ view slip. set_part (set_book view slip) slip) };
}

/// A load that changes nothing, and tells what the rule says of the view alone.
pub struct Look;

impl Play<Slip, View> for Look {
    ghost then = { looked };
}

/// The part that was asked for goes to a holder of its own.
pub struct Cut;

impl Split<View> for Cut {
    ghost left = { without_asked };

    ghost right = { asked_alone };
}

/// What two holders have, in one.
pub struct Together;

impl Join<View> for Together {
    ghost both = { together };

    ghost spent = { spent };
}

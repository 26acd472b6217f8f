//! Accounts and their holders.
ghost use Rattle.std.specs.Prelude.{◌≡◌, ◌<◌, IfOk};
ghost use Rattle.vx_account.specs.Holders.{Has, HasBoth, NoneTwice, amount_of, holds_all, part_of, without_part, with_amount, held_together};

use crate::law::{AccountRule, Ask, Cut, Look, Set, Together};
use crate::view::{Slip, View};
use atomic_table::{Seat, Table};
use std::alloc::{AllocError, Global};
use std::marker::Model;

/// A fixed number of accounts. Threads share it by reference.
#[derive(Drop)]
pub struct Accounts {
    table: Table<Slip, View, u32, AccountRule, Global>,
}

impl Model for Accounts {
    ghost use Rattle.vx_account.specs.Holders.{Size};

    ghost Value = { Size };

    ghost use Rattle.vx_account.specs.AccountFields.{size_of, HasOneWord};

    ghost view = { size_of };

    ghost invariant = { HasOneWord };
}

/// Books and parts of accounts. It has no bytes.
#[derive(Drop)]
pub struct Holder {
    token: Seat<Slip, View>,
}

impl Model for Holder {
    ghost use Rattle.vx_account.specs.Holders.{Held};

    ghost Value = { Held };

    ghost use Rattle.vx_account.specs.HolderFields.{held_of, HasNoSlots};

    ghost view = { held_of };

    ghost invariant = { HasNoSlots };
}

impl Accounts {
    /// Accounts, and a holder with every book and every part, whose amounts are 0.
    pub fn new(alloc: Global, accounts: u32) -> Result<(Accounts, Holder), AllocError>
        requires { 0 < accounts }
        ensures size { IfOk result (λ made. made.0.accounts ≡ accounts) }
        ensures all { IfOk result (λ made. made.1 ≡ holds_all made.0) }
    {
        let (table, token) = Table::of_words(alloc, &[0], &accounts)?;
        Ok((Accounts { table }, Holder { token }))
    }

    /// Moves the part of an account to a holder of its own.
    pub fn part(&self, holder: &mut Holder, account: u32) -> Holder
        requires table { holder.old.table ≡ self.now.table }
        requires part { Has account holder.old.parts }
        ensures given { result ≡ part_of holder.old account }
        ensures left { holder.new ≡ without_part holder.old account }
    {
        let word = &self.table.shared;
        let asked = Slip { account, amount: 0 };
        word.compare_exchange_with::<Ask>(&mut holder.token, 0, 1, 1, &asked);
        let token = word.split_seat::<Cut>(&mut holder.token);
        Holder { token }
    }

    /// Lets the holder have all that the other has. No account stands twice among its books then, or
    /// among its parts.
    pub fn join(&self, holder: &mut Holder, other: Holder)
        requires table { holder.old.table ≡ self.now.table }
        requires other { other.table ≡ self.now.table }
        ensures joined { holder.new ≡ held_together holder.old other }
        ensures books { NoneTwice holder.new.books }
        ensures parts { NoneTwice holder.new.parts }
    {
        let word = &self.table.shared;
        word.join_seat::<Together>(&mut holder.token, other.token);
        word.load::<Look>(&mut holder.token, 0);
    }

    /// Shows that the amounts of an account's book and part are equal. It changes nothing.
    pub fn agree(&self, holder: &mut Holder, account: u32)
        requires table { holder.old.table ≡ self.now.table }
        requires both { HasBoth holder.old account }
        ensures equal { amount_of account holder.old.books ≡ amount_of account holder.old.parts }
        ensures same { holder.new ≡ holder.old }
    {
        self.table.shared.load::<Look>(&mut holder.token, 0);
    }

    /// Sets the amounts of an account's book and part.
    pub fn set(&self, holder: &mut Holder, account: u32, amount: u64)
        requires table { holder.old.table ≡ self.now.table }
        requires both { HasBoth holder.old account }
        ensures set { holder.new ≡ with_amount holder.old account amount }
    {
        let word = &self.table.shared;
        let asked = Slip { account, amount };
        word.compare_exchange_with::<Set>(&mut holder.token, 0, 1, 1, &asked);
    }
}

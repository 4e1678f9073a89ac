//! A vector of the bank program of a form, by the names of its columns.

use bank_prog::BankTables;
use zo_model::Assignment;

/// A vector of the bank program of a form, by the names of its columns.
#[derive(Drop)]
pub struct Reading<'a> {
    pub bank: &'a BankTables<'a>,
    pub x: &'a Assignment,
}

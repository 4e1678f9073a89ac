//! Columns that are summed up, by name.

ghost use Rattle.std.specs.Prelude.{◌≡◌, map};
ghost use Rattle.bank_prog_form.specs.Columns.{eight};
ghost use Rattle.bank_prog_form.specs.Rows as lines;
ghost use Rattle.bank_prog_form.specs.declared.column.Column.TheVariants as column;

use crate::column::{Bank, Column};

/// Where a value is first put.
pub fn def(x: u32) -> [Column; 3]
    ensures { result ≡ lines.def x }
{
    [
        Column::Def(x, Bank::A),
        Column::Def(x, Bank::B),
        Column::Def(x, Bank::M),
    ]
}

/// That a value is in a bank.
pub fn home(x: u32, h: Bank) -> [Column; 2]
    ensures { result ≡ lines.home x h }
{
    [Column::Def(x, h), Column::Fill(x, h)]
}

/// That a value stays in its read register.
pub fn stay(x: u32) -> [Column; 8]
    ensures { result ≡ lines.stay x }
{
    [
        Column::Stay(x, 0),
        Column::Stay(x, 1),
        Column::Stay(x, 2),
        Column::Stay(x, 3),
        Column::Stay(x, 4),
        Column::Stay(x, 5),
        Column::Stay(x, 6),
        Column::Stay(x, 7),
    ]
}

/// That the use is served from a bank.
pub fn srv_from(k: u32, i: u32, h: Bank) -> [Column; 7]
    ensures { result ≡ lines.srv_from k i h }
{
    [
        Column::Serve(k, i, h, Bank::A),
        Column::Serve(k, i, h, Bank::B),
        Column::Serve(k, i, h, Bank::M),
        Column::Serve(k, i, h, Bank::T),
        Column::Serve(k, i, h, Bank::L),
        Column::Serve(k, i, h, Bank::A15),
        Column::Serve(k, i, h, Bank::W),
    ]
}

/// That the use is served at a bank.
pub fn srv_at(k: u32, i: u32, p: Bank) -> [Column; 7]
    ensures { result ≡ lines.srv_at k i p }
{
    [
        Column::Serve(k, i, Bank::A, p),
        Column::Serve(k, i, Bank::B, p),
        Column::Serve(k, i, Bank::M, p),
        Column::Serve(k, i, Bank::T, p),
        Column::Serve(k, i, Bank::L, p),
        Column::Serve(k, i, Bank::A15, p),
        Column::Serve(k, i, Bank::W, p),
    ]
}

/// That the word of a use is first put into its write register.
pub fn dir(k: u32, i: u32) -> [Column; 8]
    ensures { result ≡ map (column.DirectWrite k i) eight }
{
    [
        Column::DirectWrite(k, i, 0),
        Column::DirectWrite(k, i, 1),
        Column::DirectWrite(k, i, 2),
        Column::DirectWrite(k, i, 3),
        Column::DirectWrite(k, i, 4),
        Column::DirectWrite(k, i, 5),
        Column::DirectWrite(k, i, 6),
        Column::DirectWrite(k, i, 7),
    ]
}

/// That the word of a use is copied early into its write register.
pub fn ear(k: u32, i: u32) -> [Column; 8]
    ensures { result ≡ map (column.EarlyWrite k i) eight }
{
    [
        Column::EarlyWrite(k, i, 0),
        Column::EarlyWrite(k, i, 1),
        Column::EarlyWrite(k, i, 2),
        Column::EarlyWrite(k, i, 3),
        Column::EarlyWrite(k, i, 4),
        Column::EarlyWrite(k, i, 5),
        Column::EarlyWrite(k, i, 6),
        Column::EarlyWrite(k, i, 7),
    ]
}

/// Where an access begins.
pub fn first(k: u32) -> [Column; 8]
    ensures { result ≡ map (column.First k) eight }
{
    [
        Column::First(k, 0),
        Column::First(k, 1),
        Column::First(k, 2),
        Column::First(k, 3),
        Column::First(k, 4),
        Column::First(k, 5),
        Column::First(k, 6),
        Column::First(k, 7),
    ]
}

/// Through which register slots are read at a point.
pub fn pas_l(k: u32) -> [Column; 8]
    ensures { result ≡ map (column.ReadVia k) eight }
{
    [
        Column::ReadVia(k, 0),
        Column::ReadVia(k, 1),
        Column::ReadVia(k, 2),
        Column::ReadVia(k, 3),
        Column::ReadVia(k, 4),
        Column::ReadVia(k, 5),
        Column::ReadVia(k, 6),
        Column::ReadVia(k, 7),
    ]
}

/// Through which register slots are written at a point.
pub fn pas_s(k: u32) -> [Column; 8]
    ensures { result ≡ map (column.WriteVia k) eight }
{
    [
        Column::WriteVia(k, 0),
        Column::WriteVia(k, 1),
        Column::WriteVia(k, 2),
        Column::WriteVia(k, 3),
        Column::WriteVia(k, 4),
        Column::WriteVia(k, 5),
        Column::WriteVia(k, 6),
        Column::WriteVia(k, 7),
    ]
}

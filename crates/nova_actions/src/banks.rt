//! The banks of each value, as the report of a compilation chooses them.

use bank_prog::{Bank, BankTables, Column, bank_tables_of};
use nv_base::NoMemory;
use nv_lines::Message;
use ssu_ir::{Ssu, single};
use std::alloc::Global;
use zo_cert::Report;

/// Appends each value with each bank that it is put into: `3A`, or `3Bc` where a copy puts it there.
pub fn push_banks(alloc: Global, out: &mut Message, ssu: &Ssu, report: &Report) {
    if !single(ssu) {
        return;
    }
    match bank_tables_of(alloc, ssu) {
        Ok(tables) => push_chosen(alloc, out, &tables, &report.x.on),
        // Its program was small enough for the report.
        Err(_) => out.fail(),
    }
}

fn push_chosen(alloc: Global, out: &mut Message, tables: &BankTables<'_>, on: &[bool]) {
    match tables.names(alloc) {
        Ok(columns) => {
            for (column, is_chosen) in columns.iter().zip(on.iter()) {
                if *is_chosen {
                    push_choice(out, *column);
                }
            }
        }
        Err(NoMemory) => out.fail(),
    }
}

fn push_choice(out: &mut Message, column: Column) {
    match column {
        Column::Def(value, bank) => push_bank(out, value, bank, ""),
        Column::Fill(value, bank) => push_bank(out, value, bank, "c"),
        _ => {}
    }
}

fn push_bank(out: &mut Message, value: u32, bank: Bank, remark: &str) {
    out.number(u64::from(value));
    out.put(bank_letter(bank));
    out.put(remark)
}

// A register through which nothing is moved for a cost is `X`, a slot `M`.
fn bank_letter(bank: Bank) -> &'static str {
    match bank {
        Bank::A => "A",
        Bank::B => "B",
        Bank::M => "M",
        Bank::T | Bank::L => "L",
        Bank::A15 => "X",
        Bank::W => "W",
    }
}

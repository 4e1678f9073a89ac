// Tables: the words of a CSV file, put into SRAM.
ghost use Rattle.std.specs.Prelude.{◌≡◌};

use csv::{ByteRecord, ReaderBuilder};
use nova_show::{Answer, load};
use nv_base::{Access, Mem, Packet};
use nv_lines::{read_decimal, split_once};
use nv_outside::Files;
use std::alloc::{AllocError, Global};

// The most bytes of a table's file.
const MOST_TABLE: u64 = 4_194_304;

// Why a file is no table.
#[derive(Clone, Copy)]
enum TableFault {
    NoMemory,
    // The row, from 1, and its cell, from 1.
    Cell(u64, u64),
    Csv,
}

impl From<AllocError> for TableFault {
    fn from(_error: AllocError) -> TableFault {
        TableFault::NoMemory
    }
}

/// Puts the words of the file that `given` names behind a colon into SRAM, from the word on that it names before. False where
/// that isn't possible, and then the answer says why.
pub fn put_table<F: Files>(
    alloc: Global,
    files: &mut F,
    given: &str,
    memory: &mut Packet,
    answer: &mut Answer,
) -> bool
    ensures held { F.held files.new ≡ F.held files.old }
{
    let Some((place, name)) = given.split_once(':') else {
        answer.fault("nova", "`--table` needs a word of SRAM, a colon and a file");
        return false;
    };
    let Some(place) = read_decimal(place.as_bytes(), u64::from(u32::MAX)) else {
        answer.fault("nova", "`--table` needs a word of SRAM, a colon and a file");
        return false;
    };
    let Some(text) = load(alloc, files, name, MOST_TABLE, answer) else {
        return false;
    };
    let mut words = Vec::new(alloc);
    match push_table(alloc, &text, &mut words) {
        Ok(()) => put_all(name, place, &words, memory, answer),
        Err(fault) => {
            push_fault(name, fault, answer);
            false
        }
    }
}

fn put_all(
    name: &str,
    place: u64,
    words: &[u32],
    memory: &mut Packet,
    answer: &mut Answer,
) -> bool {
    let mut at = place;
    for word in words {
        match memory.write(Mem::Sram, at, &[*word]) {
            Access::Done => at = at.saturating_add(1),
            Access::Bad => {
                answer.fault(name, "the table reaches past SRAM");
                return false;
            }
        }
    }
    true
}

fn push_fault(name: &str, fault: TableFault, answer: &mut Answer) {
    match fault {
        TableFault::NoMemory => answer.fail(),
        TableFault::Csv => answer.fault(name, "the file can't be read as CSV"),
        TableFault::Cell(row, cell) => {
            let mut it = answer.finding();
            it.title.put("row ");
            it.title.number(row);
            it.title.put(", cell ");
            it.title.number(cell);
            it.title.put(": no word, address or prefix");
            answer.push(name, it)
        }
    }
}

// The words of all cells, row by row. A first row that begins with none is a heading.
fn push_table(alloc: Global, text: &[u8], words: &mut Vec<u32>) -> Result<(), TableFault> {
    let mut reader = ReaderBuilder::new()
        .has_headers(false)
        .flexible(true)
        .from_reader(alloc, text);
    let mut row = ByteRecord::new(alloc);
    for number in 1..u64::MAX {
        match reader.read_byte_record(&mut row) {
            Ok(true) => push_row(&row, number, words)?,
            Ok(false) => return Ok(()),
            Err(_) => return Err(TableFault::Csv),
        }
    }
    Ok(())
}

fn push_row(row: &ByteRecord, number: u64, words: &mut Vec<u32>) -> Result<(), TableFault> {
    let mut cell: u64 = 0;
    for i in 0..row.len() {
        cell = cell.saturating_add(1);
        let text = row.get(i).unwrap_or(b"").trim_ascii();
        if !push_cell(text, words)? {
            if number == 1 && cell == 1 {
                return Ok(());
            }
            return Err(TableFault::Cell(number, cell));
        }
    }
    Ok(())
}

// The words of a cell. False where it is none.
fn push_cell(text: &[u8], words: &mut Vec<u32>) -> Result<bool, AllocError> {
    if let Some(word) = word_of(text) {
        words.push(word)?;
        return Ok(true);
    }
    let Some((address, len)) = prefix_of(text) else {
        return Ok(false);
    };
    words.push(address)?;
    words.push(mask_of(len))?;
    Ok(true)
}

// The mask of so many bits.
fn mask_of(len: u32) -> u32 {
    if len == 0 || len > 32 {
        0
    } else {
        u32::MAX << (32 - len)
    }
}

// A decimal number, a hexadecimal one behind `0x`, or an IPv4 address.
fn word_of(text: &[u8]) -> Option<u32> {
    match text {
        [b'0', b'x', digits @ ..] => hexadecimal(digits),
        _ => match read_decimal(text, u64::from(u32::MAX)) {
            Some(number) => Some(number as u32),
            None => address_of(text),
        },
    }
}

fn hexadecimal(digits: &[u8]) -> Option<u32> {
    if digits.is_empty() || digits.len() > 8 {
        return None;
    }
    let mut word: u32 = 0;
    for digit in digits {
        word = word << 4 | (*digit as char).to_digit(16)?;
    }
    Some(word)
}

fn address_of(text: &[u8]) -> Option<u32> {
    let mut word: u32 = 0;
    let mut rest = text;
    for _ in 0..3 {
        let (part, behind) = split_once(rest, b'.')?;
        word = word << 8 | byte_of(part)?;
        rest = behind;
    }
    Some(word << 8 | byte_of(rest)?)
}

fn byte_of(text: &[u8]) -> Option<u32> {
    let number = read_decimal(text, 255)?;
    Some(number as u32)
}

// An address whose bits behind the mask are 0, and the number of bits of its mask.
fn prefix_of(text: &[u8]) -> Option<(u32, u32)> {
    let (address, len) = split_once(text, b'/')?;
    let address = address_of(address)?;
    let len = read_decimal(len, 32)? as u32;
    if address & !mask_of(len) == 0 {
        Some((address, len))
    } else {
        None
    }
}

//! Kinds of places, and the registers of written words.

ghost use Rattle.std.specs.Prelude.{◌≡◌, ◌+◌, nat_eq, nat_le};
ghost use Rattle.std.specs.List.{list_any};
ghost use Rattle.place_plan.specs.Fits as rules;
ghost use Rattle.place_plan.specs.Fits.{read_place, has_place};
ghost use Rattle.place_plan.specs.Places.{same_place};
ghost use Rattle.place_plan.specs.declared.place.Place.TheVariants.{A as Areg, S as Sreg};
ghost use Rattle.place_ir_checks.specs.inner.Checks as checks;
ghost use Rattle.place_ir_checks.specs.inner.Checks.{word_place};

use nv_base::Mem;
use place_plan::Place;

/// Where a written word goes; the number may be past the last register. `Other` stands for a use that is
/// no written word.
#[derive(Clone, Copy)]
pub enum Word {
    S(u64),
    SD(u64),
    Other,
}

/// Whether a place is in a list.
pub fn among(qs: &[Place], q: Place) -> bool
    ensures { result ≡ has_place q qs.now }
{
    for r in qs {
        if q.is(*r) {
            return true;
        }
    }
    false
}

/// Whether a slot is among places.
pub fn has_slot(qs: &[Place]) -> bool
    ensures { result ≡ list_any rules.is_slot qs.now }
{
    for q in qs {
        if q.is_slot() {
            return true;
        }
    }
    false
}

/// Whether a value can be at home in a place, where there are N slots.
pub fn can_be_home(slots: u32, q: Place) -> bool
    ensures { result ≡ checks.can_be_home slots q }
{
    match q {
        Place::A(k) => k < 15,
        Place::B(k) => k < 15,
        Place::Slot(k) => (k as u32) < slots,
        _ => false,
    }
}

/// The order of copies: the first bank, the second, slots; 0 for other places.
pub fn rank(q: Place) -> u8
    ensures { result ≡ checks.rank q }
{
    match q {
        Place::A(_) => 1,
        Place::B(_) => 2,
        Place::Slot(_) => 3,
        _ => 0,
    }
}

/// Whether two places are general registers of one bank, or slots.
pub fn same_bank(q: Place, r: Place) -> bool
    ensures { result ≡ rules.same_bank q r }
{
    match q {
        Place::A(_) => match r {
            Place::A(_) => true,
            _ => false
        },
        Place::B(_) => match r {
            Place::B(_) => true,
            _ => false
        },
        Place::Slot(_) => match r {
            Place::Slot(_) => true,
            _ => false
        },
        _ => false,
    }
}

/// Whether two operands of one instruction may come from these places.
pub fn different_groups(q: Place, r: Place) -> bool
    ensures { result ≡ rules.different_groups q r }
{
    match q {
        Place::A(_) => match r {
            Place::A(_) => false,
            _ => true
        },
        Place::B(_) => match r {
            Place::B(_) => false,
            _ => true
        },
        Place::L(_) => !r.is_read(),
        Place::LD(_) => !r.is_read(),
        _ => true,
    }
}

/// Whether a place is the register of word `i` of a read whose run of words begins at `first`.
pub fn is_read_place(q: Place, m: Mem, first: u8, i: usize) -> bool
    ensures { result ≡ same_place q (read_place m (first + i)) }
{
    match m {
        Mem::Sram => match q {
            Place::L(j) => is_sum(j, first, i),
            _ => false
        },
        Mem::Sdram => match q {
            Place::LD(j) => is_sum(j, first, i),
            _ => false
        },
        Mem::Scratch => match q {
            Place::L(j) => is_sum(j, first, i),
            _ => false
        },
    }
}

/// Whether a register's number is the sum of two.
fn is_sum(j: u8, first: u8, i: usize) -> bool
    ensures { result ≡ nat_eq j (first + i) }
{
    j >= first && (j - first) as usize == i
}

/// Whether a place is among the registers of N words of a read.
pub fn in_read_run(q: Place, m: Mem, first: u8, words: usize) -> bool
    ensures { result ≡ checks.in_read_run m q first words }
{
    match m {
        Mem::Sram => match q {
            Place::L(j) => is_within(j as u64, first, words),
            _ => false
        },
        Mem::Sdram => match q {
            Place::LD(j) => is_within(j as u64, first, words),
            _ => false
        },
        Mem::Scratch => match q {
            Place::L(j) => is_within(j as u64, first, words),
            _ => false
        },
    }
}

/// Whether a word's register is among those of N words of a write.
pub fn in_write_run(w: Word, m: Mem, first: u8, words: usize) -> bool
    ensures { result ≡ checks.in_write_run m (word_place w) first words }
{
    match m {
        Mem::Sram => match w {
            Word::S(j) => is_within(j, first, words),
            _ => false
        },
        Mem::Sdram => match w {
            Word::SD(j) => is_within(j, first, words),
            _ => false
        },
        Mem::Scratch => match w {
            Word::S(j) => is_within(j, first, words),
            _ => false
        },
    }
}

/// Whether a register's number is one of so many from the first on.
fn is_within(j: u64, first: u8, words: usize) -> bool
    ensures { result ≡ checks.is_within j first words }
{
    j >= first as u64 && ((j - first as u64) as u128) < words as u128
}

/// Whether a place is the register of a word.
pub fn is_at(q: Place, w: Word) -> bool
    ensures { result ≡ same_place q (word_place w) }
{
    match w {
        Word::S(k) => match q {
            Place::S(j) => j as u64 == k,
            _ => false
        },
        Word::SD(k) => match q {
            Place::SD(j) => j as u64 == k,
            _ => false
        },
        Word::Other => match q {
            Place::Slot(j) => j == 0,
            _ => false
        },
    }
}

/// Whether a place is the register of this number for the words of an end.
pub fn is_ending_at(q: Place, i: u32) -> bool
    ensures { result ≡ same_place q (Areg i) }
{
    match q {
        Place::A(j) => j as u32 == i,
        _ => false,
    }
}

/// Whether two words have one register.
pub fn same_word(v: Word, w: Word) -> bool
    ensures { result ≡ same_place (word_place v) (word_place w) }
{
    match v {
        Word::S(i) => match w {
            Word::S(j) => i == j,
            _ => false
        },
        Word::SD(i) => match w {
            Word::SD(j) => i == j,
            _ => false
        },
        Word::Other => match w {
            Word::Other => true,
            _ => false
        },
    }
}

/// Whether a word has the register of this number for SRAM and scratch, where one is named.
pub fn is_through(w: Word, s: Option<u8>) -> bool
    ensures { result ≡ has_place (word_place w) (rules.maybe Sreg s) }
{
    match s {
        None => false,
        Some(r) => match w {
            Word::S(j) => j == r as u64,
            _ => false
        },
    }
}

/// Where an operand may be fetched from its place: `l` is the register through which slots are read.
pub fn is_operand_at(l: Option<u8>, from: Place, at: Place) -> bool
    ensures { result ≡ checks.is_operand_at l from at }
{
    match from {
        Place::A(_) => from.is(at),
        Place::B(_) => from.is(at) || at.is(Place::A(15)),
        Place::L(_) => from.is(at) || at.is(Place::A(15)),
        Place::LD(_) => from.is(at) || at.is(Place::A(15)),
        Place::S(_) => false,
        Place::SD(_) => false,
        Place::Slot(_) => at.is(Place::A(15)) || is_read_through(l, at),
    }
}

/// Whether a place is the register through which slots are read.
pub fn is_read_through(l: Option<u8>, at: Place) -> bool
    ensures { result ≡ checks.is_read_through l at }
{
    match l {
        None => false,
        Some(r) => at.is(Place::L(r)),
    }
}

/// Where an address may be fetched from its place.
pub fn is_address_at(from: Place, at: Place) -> bool
    ensures { result ≡ checks.is_address_at from at }
{
    match from {
        Place::A(_) => from.is(at),
        Place::B(_) => from.is(at),
        Place::L(_) => at.is(Place::A(15)),
        Place::LD(_) => at.is(Place::A(15)),
        Place::S(_) => false,
        Place::SD(_) => false,
        Place::Slot(_) => at.is(Place::A(15)),
    }
}

/// Whether N words from a register on are in their bank.
pub fn is_first(m: Mem, words: usize, first: u8) -> bool
    ensures { result ≡ checks.is_first m words first }
{
    match m {
        Mem::Sram => ends_in_bank(words, first),
        Mem::Sdram => ends_in_bank(words, first) && first % 2 == 0,
        Mem::Scratch => ends_in_bank(words, first),
    }
}

/// Whether a run of registers ends within a bank.
fn ends_in_bank(words: usize, first: u8) -> bool
    ensures { result ≡ nat_le (first + words) 8 }
{
    words <= 8 && first as usize + words <= 8
}

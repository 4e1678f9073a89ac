//! What a vector of the bank program says of the columns by name.

ghost use Rattle.std.specs.Prelude.{◌≡◌};
ghost use Rattle.bank_prog_form.specs.Columns.{eight};
ghost use Rattle.reg_assign_reading.specs.ReadOff as pure;
ghost use Rattle.reg_assign_reading.specs.inner.Reading.{says, column_of};
ghost use Rattle.place_plan.specs.inner.UseViews.{use_view};

use crate::reading::Reading;
use bank_prog::{Bank, Column, Role, Service, Use, number};

/// Eight columns, one for each register: of the access at a point, of the word of an operand there, or of
/// the slots that pass there.
#[derive(Clone, Copy)]
pub enum Family {
    First(u32),
    DirectWrite(u32, u32),
    EarlyWrite(u32, u32),
    ReadVia(u32),
    WriteVia(u32),
}

impl Family {
    /// The column for a register.
    fn column(self, r: u8) -> Column
        ensures { result ≡ column_of self r }
    {
        match self {
            Family::First(k) => Column::First(k, r),
            Family::DirectWrite(k, i) => Column::DirectWrite(k, i, r),
            Family::EarlyWrite(k, i) => Column::EarlyWrite(k, i, r),
            Family::ReadVia(k) => Column::ReadVia(k, r),
            Family::WriteVia(k) => Column::WriteVia(k, r),
        }
    }
}

impl Reading<'_> {
    /// Whether a column is on.
    pub fn is_on(&self, c: Column) -> bool
        ensures { result ≡ says self.now c }
    {
        match number(&self.bank.numbers, c) {
            Some(j) => self.x.on.get(j as usize).copied().unwrap_or(false),
            None => false,
        }
    }

    /// Whether a value has a home in a bank.
    pub fn has_home(&self, x: u32, h: Bank) -> bool
        ensures { result ≡ pure.has_home (says self.now) x h }
    {
        self.is_on(Column::Def(x, h)) || self.is_on(Column::Fill(x, h))
    }

    /// The first register whose column is on.
    pub fn first_on(&self, family: Family) -> Option<u8>
        ensures { result ≡ pure.first_on (λ r. says self.now (column_of family r)) eight }
    {
        for r in 0..8u8 {
            if self.is_on(family.column(r)) {
                return Some(r);
            }
        }
        None
    }

    /// The first register of the access at a point.
    pub fn begins(&self, k: u32) -> u8
        ensures { result ≡ pure.begins (says self.now) k }
    {
        self.first_on(Family::First(k)).unwrap_or(0)
    }

    /// Whether a word is put early into its write register.
    pub fn goes_early(&self, u: Use) -> bool
        ensures { result ≡ pure.goes_early (says self.now) (use_view u) }
    {
        match u.role {
            Role::Written(_, _) => {
                self.first_on(Family::DirectWrite(u.point, u.operand))
                    .is_some()
                    || self
                        .first_on(Family::EarlyWrite(u.point, u.operand))
                        .is_some()
            }
            Role::Operand => false,
            Role::Address => false,
            Role::Argument(_, _) => false,
            Role::Ending(_) => false,
        }
    }

    /// The bank into which the definition of a value puts it.
    pub fn def_bank(&self, x: u32) -> Option<Bank>
        ensures { result ≡ pure.def_bank (says self.now) x }
    {
        if self.is_on(Column::Def(x, Bank::A)) {
            return Some(Bank::A);
        }
        if self.is_on(Column::Def(x, Bank::B)) {
            return Some(Bank::B);
        }
        if self.is_on(Column::Def(x, Bank::M)) {
            return Some(Bank::M);
        }
        None
    }

    /// How a use is served, by the first of these ways that is on.
    pub fn service_on(&self, u: Use, services: &[Service]) -> Option<Service>
        ensures { result ≡ pure.service_on (says self.now) (use_view u) services.now }
    {
        for s in services {
            if self.is_on(Column::Serve(u.point, u.operand, s.from, s.at)) {
                return Some(*s);
            }
        }
        None
    }
}

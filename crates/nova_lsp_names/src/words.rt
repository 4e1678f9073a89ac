//! What a name is by its place.

use crate::kind::Role;
use crate::mark::Mark;
use crate::scan::{Context, Scan};

impl<'a> Scan<'a> {
    /// Notes the name at this token.
    pub fn word(&mut self) {
        match self.context {
            Context::Outside => {}
            Context::Layout => self.word_of_layout(),
            Context::Exception => self.define(Role::Exception, None),
            Context::Header => self.define(Role::Function, None),
            Context::Parameters => self.word_of_parameters(),
            Context::Type => self.word_of_type(),
            Context::Pattern => self.define(Role::Variable, None),
            Context::Body => self.word_of_body(),
        }
    }

    fn word_of_layout(&mut self) {
        if self.mark(1) == Mark::Layout {
            self.define(Role::Layout, None);
            return self.own_next();
        }
        if self.next() == Mark::Colon {
            let owner = self.owner;
            return self.define(Role::Field, owner);
        }
        let owner = self.field.or(self.owner);
        self.join(owner);
        self.occur(Role::Layout, None, self.at)
    }

    fn word_of_parameters(&mut self) {
        if self.next() == Mark::Colon {
            self.define(Role::Parameter, None);
            self.own_next()
        }
    }

    fn word_of_type(&mut self) {
        if self.next() == Mark::Colon {
            let owner = self.owner;
            return self.define(Role::Field, owner);
        }
        self.occur(Role::Layout, None, self.at);
        if self.mark(2) == Mark::Unpacked && self.mark(3) == Mark::Colon {
            self.shape_of_type()
        }
    }

    // The type of a parameter or of a function's result.
    fn shape_of_type(&mut self) {
        if self.mark(4) == Mark::CloseSquare {
            self.shape_of_current()
        } else {
            self.shape(4)
        }
    }

    fn word_of_body(&mut self) {
        let before = self.mark(1);
        if before == Mark::Dot {
            let base = self.at.saturating_sub(2);
            return self.occur(Role::Field, None, base);
        }
        if before == Mark::Raise || before == Mark::Handle {
            return self.occur(Role::Exception, None, self.at);
        }
        if before == Mark::OpenSquare {
            let opener = self.mark(2);
            if opener == Mark::Pack || opener == Mark::Unpack {
                return self.layout_in_body(opener);
            }
        }
        self.word_of_value(before)
    }

    fn layout_in_body(&mut self, opener: Mark) {
        self.occur(Role::Layout, None, self.at);
        let is_let = self.mark(3) == Mark::Equals && self.mark(5) == Mark::Let;
        if opener == Mark::Unpack && is_let {
            self.shape(4)
        }
    }

    fn word_of_value(&mut self, before: Mark) {
        let begins = before == Mark::OpenCurly || before == Mark::Comma;
        if begins && self.next() == Mark::Equals {
            let bracket = self.bracket();
            return self.occur(Role::Field, None, bracket);
        }
        if self.next() != Mark::OpenSquare {
            return self.variable();
        }
        self.occur(Role::Function, None, self.at);
        if before == Mark::Equals && self.mark(3) == Mark::Let {
            self.shape(2)
        }
    }
}

//! The names of a source, and where each is defined.

use crate::kind::{Definition, Occurrence, Role};
use crate::scan::Scan;
use diag_text::declared::Declared;
use nv_ast::{Name, Sort, Token};
use std::alloc::{AllocError, Global};

/// The tokens of a source, the definitions of names among them, and the occurrences of names in the order of the text.
#[derive(Drop)]
pub struct Names {
    pub tokens: Vec<Token>,
    pub definitions: Vec<Definition>,
    pub occurrences: Vec<Occurrence>,
    /// Beside each token the bracket that it closes, or itself.
    pub partners: Vec<usize>,
}

impl Names {
    /// Those of a text without a token.
    pub fn none(alloc: Global) -> Names {
        Names {
            tokens: Vec::new(alloc),
            definitions: Vec::new(alloc),
            occurrences: Vec::new(alloc),
            partners: Vec::new(alloc),
        }
    }

    /// Those of the text with these tokens.
    pub fn of(alloc: Global, tokens: Vec<Token>) -> Result<Names, AllocError> {
        let mut names = Names::none(alloc);
        let is_short = names.scan(alloc, &tokens);
        names.tokens = tokens;
        if is_short {
            return Err(AllocError);
        }
        if names.link_globals(alloc) {
            return Err(AllocError);
        }
        names.link_fields(alloc);
        Ok(names)
    }

    // Finds the definitions and the occurrences, and gives whether memory ran out.
    fn scan(&mut self, alloc: Global, tokens: &[Token]) -> bool {
        let mut scan = Scan::new(alloc, tokens);
        scan.run();
        let is_short = scan.note.is_short();
        let Scan {
            definitions,
            occurrences,
            partners,
            ..
        } = scan;
        self.definitions = definitions;
        self.occurrences = occurrences;
        self.partners = partners;
        is_short
    }

    /// The name that a token is.
    pub fn name(&self, token: usize) -> Option<&Name> {
        match self.tokens.get(token) {
            Some(it) => name_of(it),
            None => None,
        }
    }

    /// The bytes of the name that a token is; of another token none.
    pub fn spelling(&self, token: usize) -> &[u8] {
        match self.name(token) {
            Some(name) => name.bytes(),
            None => &[],
        }
    }

    /// The number of the occurrence at a token.
    pub fn occurrence_at(&self, token: usize) -> Option<usize> {
        let mut low: usize = 0;
        let mut high = self.occurrences.len();
        for _ in 0..64 {
            if low >= high {
                return None;
            }
            let middle = low.midpoint(high);
            let found = self.token_of(middle);
            if found == token {
                return Some(middle);
            }
            if found < token {
                low = middle.saturating_add(1)
            } else {
                high = middle
            }
        }
        None
    }

    fn token_of(&self, occurrence: usize) -> usize {
        match self.occurrences.get(occurrence) {
            Some(it) => it.token,
            None => usize::MAX,
        }
    }

    /// The occurrence at a token.
    pub fn at(&self, token: usize) -> Option<Occurrence> {
        let n = self.occurrence_at(token)?;
        self.occurrences.get(n).copied()
    }

    /// The definition of a number.
    pub fn definition(&self, n: usize) -> Option<Definition> {
        self.definitions.get(n).copied()
    }

    // Gives the occurrences of layouts, exceptions and functions their definitions, and tells whether memory ran out.
    fn link_globals(&mut self, alloc: Global) -> bool {
        let mut found = Vec::new(alloc);
        let is_short = self.find_globals(alloc, &mut found);
        for (n, definition) in found.iter().enumerate() {
            if let Some(it) = self.occurrences.get_mut(n) {
                it.definition = it.definition.or(*definition);
            }
        }
        is_short
    }

    // Appends for each occurrence its definition, where that is a layout, an exception or a function.
    fn find_globals(&self, alloc: Global, found: &mut Vec<Option<usize>>) -> bool {
        let mut layouts = Declared::new(alloc);
        let mut exceptions = Declared::new(alloc);
        let mut functions = Declared::new(alloc);
        self.declare(Role::Layout, &mut layouts);
        self.declare(Role::Exception, &mut exceptions);
        self.declare(Role::Function, &mut functions);
        let mut is_short = layouts.is_short() || exceptions.is_short() || functions.is_short();
        for it in self.occurrences.iter() {
            let definition = match it.role {
                Role::Layout => self.declared(&layouts, it.token),
                Role::Exception => self.declared(&exceptions, it.token),
                Role::Function => self.declared(&functions, it.token),
                _ => None,
            };
            is_short = found.push(definition).is_err() || is_short;
        }
        is_short
    }

    // Adds all declarations of a role; of those with one name the last.
    fn declare<'a>(&'a self, role: Role, into: &mut Declared<'a, usize>) {
        for (n, it) in self.definitions.iter().enumerate() {
            if it.role == role {
                if let Some(name) = self.name(it.token) {
                    into.add(name, n)
                }
            }
        }
    }

    fn declared<'a>(&'a self, among: &Declared<'a, usize>, token: usize) -> Option<usize> {
        match self.name(token) {
            Some(name) => among.get(name),
            None => None,
        }
    }

    /// The number of the token that has a byte, or of a name that ends right before it.
    pub fn token_at(&self, at: usize) -> Option<usize> {
        let n = self.tokens_before(at.saturating_add(1)).checked_sub(1)?;
        let token = self.tokens.get(n)?;
        let after = token.span.after as usize;
        if at < after {
            return Some(n);
        }
        if at == after && name_of(token).is_some() {
            return Some(n);
        }
        None
    }

    /// How many tokens begin before a byte.
    pub fn tokens_before(&self, at: usize) -> usize {
        let mut low: usize = 0;
        let mut high = self.tokens.len();
        for _ in 0..64 {
            if low >= high {
                return low;
            }
            let middle = low.midpoint(high);
            if self.first_of(middle) < at {
                low = middle.saturating_add(1)
            } else {
                high = middle
            }
        }
        low
    }

    /// The first byte of a token.
    pub fn first_of(&self, token: usize) -> usize {
        match self.tokens.get(token) {
            Some(it) => it.span.first as usize,
            None => usize::MAX,
        }
    }

    /// The byte after a token.
    pub fn after_of(&self, token: usize) -> usize {
        match self.tokens.get(token) {
            Some(it) => it.span.after as usize,
            None => 0,
        }
    }
}

// The name that a token is.
fn name_of(token: &Token) -> Option<&Name> {
    match &token.sort {
        Sort::Word(name) => Some(name),
        _ => None,
    }
}

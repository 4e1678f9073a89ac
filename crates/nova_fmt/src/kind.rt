// What the formatter sees of a token, and which tokens stand next to one another.
ghost use Rattle.std.specs.Prelude.{◌≡◌};
ghost use Rattle.nova_fmt.specs.Kinds.{kind_of, key_kind, sign_kind, is_start, is_operator, goes_on, hangs, opens, closes, clings_to_last, clings_to_next, is_pair, joined};

use nv_ast::Sort;

/// What a token is to the formatter.
#[derive(Clone, Copy)]
pub enum Kind {
    /// No token: the start of the text.
    Start,
    /// A name, a number, or a keyword for a value, a type or a memory.
    Name,
    /// A keyword that begins a declaration or an expression.
    Key,
    /// A sign between two operands.
    Operator,
    Not,
    Tilde,
    /// A colon, a comma or a semicolon.
    Mark,
    Dot,
    Open,
    Close,
    OpenBrace,
    CloseBrace,
    OpenSquare,
    CloseSquare,
}

impl Kind {
    /// The kind of a token.
    pub fn of(sort: &Sort) -> Kind
        ensures { result ≡ kind_of sort.now }
    {
        match sort {
            Sort::Word(_) | Sort::Number(_) => Kind::Name,
            Sort::Key(number) => key(*number),
            Sort::Sign(number) => sign(*number),
        }
    }

    pub fn is_start(self) -> bool
        ensures { result ≡ is_start self }
    {
        matches!(self, Kind::Start)
    }

    fn is_operator(self) -> bool
        ensures { result ≡ is_operator self }
    {
        matches!(self, Kind::Operator)
    }

    fn goes_on(self) -> bool
        ensures { result ≡ goes_on self }
    {
        matches!(
            self,
            Kind::Operator | Kind::Name | Kind::Close | Kind::CloseSquare
        )
    }

    /// Whether a line that begins with the next token hangs from the line that ends with this one.
    pub fn hangs(self, next: Kind) -> bool
        ensures { result ≡ hangs self next }
    {
        self.goes_on() || next.is_operator()
    }

    pub fn opens(self) -> bool
        ensures { result ≡ opens self }
    {
        matches!(self, Kind::Open | Kind::OpenBrace | Kind::OpenSquare)
    }

    pub fn closes(self) -> bool
        ensures { result ≡ closes self }
    {
        matches!(self, Kind::Close | Kind::CloseBrace | Kind::CloseSquare)
    }

    fn clings_to_last(self) -> bool
        ensures { result ≡ clings_to_last self }
    {
        matches!(
            self,
            Kind::Mark | Kind::Dot | Kind::Close | Kind::CloseSquare | Kind::OpenSquare
        )
    }

    fn clings_to_next(self) -> bool
        ensures { result ≡ clings_to_next self }
    {
        matches!(
            self,
            Kind::Open | Kind::OpenSquare | Kind::Dot | Kind::Tilde
        )
    }

    fn is_pair(self, next: Kind) -> bool
        ensures { result ≡ is_pair self next }
    {
        match self {
            Kind::Not => !next.is_operator(),
            Kind::Name | Kind::CloseSquare => matches!(next, Kind::Open),
            Kind::OpenBrace => matches!(next, Kind::CloseBrace),
            _ => false,
        }
    }

    /// Whether no blank stands between two tokens of one line.
    pub fn joined(self, next: Kind) -> bool
        ensures { result ≡ joined self next }
    {
        next.clings_to_last() || self.clings_to_next() || self.is_pair(next)
    }
}

fn key(number: u8) -> Kind
    ensures { result ≡ key_kind number }
{
    if number < 12 || number == 19 {
        Kind::Key
    } else {
        Kind::Name
    }
}

fn sign(number: u8) -> Kind
    ensures { result ≡ sign_kind number }
{
    match number {
        5 => Kind::Tilde,
        17 => Kind::Not,
        20..=22 => Kind::Mark,
        23 => Kind::Dot,
        24 => Kind::Open,
        25 => Kind::Close,
        26 => Kind::OpenBrace,
        27 => Kind::CloseBrace,
        28 => Kind::OpenSquare,
        29 => Kind::CloseSquare,
        _ => Kind::Operator,
    }
}

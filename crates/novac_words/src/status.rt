//! How a run of the program ended.
ghost use Rattle.std.specs.Prelude.{◌≡◌};
ghost use Rattle.novac_words.specs.Status.{status_number};

/// How a run of the program ended.
#[derive(Clone, Copy, Debug, PartialEq, Eq)]
pub enum Status {
    /// The command did what it is for; the run ended.
    Done,
    /// The words are no command.
    Usage,
    /// A file that the words name as an input could not be read.
    ReadFault,
    /// A file that the words name as an output, or the printed text, could not be written.
    WriteFault,
    /// Memory ran out. No file was changed, and nothing was printed.
    NoMemory,
    /// A text isn't of its form.
    Syntax,
    /// A source's program has a fault of its types.
    TypeFault,
    /// An input has more bytes than its limit, or a source's program, the 0-1 program of its banks or a memory a size above its
    /// limit.
    TooLarge,
    /// No choice of banks meets the rows of a source's 0-1 program. The report that proves it was saved.
    Infeasible,
    /// No choice of banks was found with so many branches. The report with the tree that was searched was saved.
    BudgetSpent,
    /// The code has more instructions than were allowed.
    StoreFull,
    /// The bytes aren't an object.
    BadObject,
    /// A memory text isn't of its form.
    BadMemoryText,
    /// The run raised an exception.
    Raised,
    /// The run reached past a memory.
    Fault,
    /// The run was still going after all its steps or calls.
    StepsSpent,
    /// A report isn't of its form, or isn't true.
    CertificateRefused,
    /// The code isn't lawful.
    Unlawful,
    /// A text of weights isn't of its form.
    BadWeights,
    /// A schedule isn't of its form.
    BadSchedule,
    /// The code of an object differs from a source: in its number of parameters, or in a write.
    Disagrees,
}

impl Status {
    /// The number that the program ends with.
    pub fn code(&self) -> u8
        ensures { result ≡ status_number self.now }
    {
        match self {
            Status::Done => 0,
            Status::Usage => 2,
            Status::ReadFault => 3,
            Status::WriteFault => 4,
            Status::NoMemory => 5,
            Status::Syntax => 6,
            Status::TypeFault => 7,
            Status::TooLarge => 8,
            Status::Infeasible => 9,
            Status::BudgetSpent => 10,
            Status::StoreFull => 11,
            Status::BadObject => 12,
            Status::BadMemoryText => 13,
            Status::Raised => 14,
            Status::Fault => 15,
            Status::StepsSpent => 16,
            Status::CertificateRefused => 17,
            Status::Unlawful => 18,
            Status::BadWeights => 21,
            Status::BadSchedule => 22,
            Status::Disagrees => 23,
        }
    }
}

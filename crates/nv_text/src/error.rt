use thiserror::Error;

/// Why a text is no program. Places are counted in bytes from 0.
#[derive(Clone, Copy, Debug, PartialEq, Eq, Error)]
pub enum TextError {
    /// Memory ran out.
    #[error("out of memory")]
    NoMemory,
    /// A byte that begins no token.
    #[error("no token begins at byte {0}")]
    Char(u32),
    /// A number above 4,294,967,295.
    #[error("the number at byte {0} is too large")]
    Number(u32),
    /// A word longer than 64 bytes.
    #[error("the name at byte {0} is too long")]
    Name(u32),
    /// The first token that no program has there, or the text's length.
    #[error("the token at byte {0} fits no program")]
    Syntax(u32),
    /// The first token with which every program is nested too deep.
    #[error("the token at byte {0} is nested too deep")]
    Deep(u32),
}

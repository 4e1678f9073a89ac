// The keywords and signs by their numbers.
ghost use Rattle.std.specs.Prelude.{◌≡◌, position, bytes_eq};
ghost use Rattle.nv_text.specs.Spelling.{keyword_of, sign_of};

const KEYWORDS: [&str; 23] = [
    "layout",
    "exception",
    "fun",
    "and",
    "let",
    "if",
    "else",
    "unpack",
    "pack",
    "raise",
    "try",
    "handle",
    "sram",
    "sdram",
    "scratch",
    "word",
    "bool",
    "packed",
    "unpacked",
    "overlay",
    "true",
    "false",
    "_",
];

const SIGNS: [&str; 31] = [
    "+", "-", "&", "|", "^", "~", "<<", ">>", "<<<", "==", "!=", "<", "<=", ">", ">=", "&&", "||",
    "!", "<-", "=", ";", ":", ",", ".", "(", ")", "{", "}", "[", "]", "##",
];

/// The place of the first of these words that has these bytes.
fn place(words: &[&str], bytes: &[u8]) -> Option<usize>
    ensures { result ≡ position (λ w. bytes_eq w.now bytes.now) words.now }
{
    words.iter().position(|w| w.as_bytes() == bytes)
}

#[tactic(auto, unfolding(crate::specs::Spelling::keyword_of))]
/// The number of the keyword that these bytes spell.
pub fn keyword(word: &[u8]) -> Option<usize>
    ensures { result ≡ keyword_of word.now }
{
    place(&KEYWORDS, word)
}

#[tactic(auto, using(crate::proofs::LongestToken::no_sign), unfolding(crate::specs::Spelling::sign_of))]
/// The number of the sign that these bytes spell.
pub fn sign(bytes: &[u8]) -> Option<usize>
    ensures { result ≡ sign_of bytes.now }
{
    place(&SIGNS, bytes)
}

//! Characters beyond ASCII that look like one of it, as texts for people have them.

/// A character of such a text, and what stands for it in a source.
#[derive(Clone, Copy)]
pub struct Alike {
    /// The character alone.
    pub text: &'static str,
    /// Its number, as Unicode writes it.
    pub number: &'static str,
    pub help: &'static str,
}

const MINUS: &str = "It looks like `-`, which is written here.";

const QUOTE: &str = "There are no strings and no characters. Write their numbers, as 0x41.";

const BLANK: &str = "It looks like a blank. Write a blank in its place.";

const HIDDEN: &str = "It can't be seen. Take it out.";

// Each character with its number and what helps.
const ALIKE: [(&str, &str, &str); 24] = [
    ("\u{2212}", "U+2212", MINUS),
    ("\u{2010}", "U+2010", MINUS),
    ("\u{2011}", "U+2011", MINUS),
    ("\u{2013}", "U+2013", MINUS),
    ("\u{2014}", "U+2014", MINUS),
    ("\u{2018}", "U+2018", QUOTE),
    ("\u{2019}", "U+2019", QUOTE),
    ("\u{201c}", "U+201C", QUOTE),
    ("\u{201d}", "U+201D", QUOTE),
    ("\u{a0}", "U+00A0", BLANK),
    ("\u{202f}", "U+202F", BLANK),
    ("\u{3000}", "U+3000", BLANK),
    ("\u{200b}", "U+200B", HIDDEN),
    ("\u{feff}", "U+FEFF", HIDDEN),
    ("\u{2264}", "U+2264", "Write `<=`."),
    ("\u{2265}", "U+2265", "Write `>=`."),
    ("\u{2260}", "U+2260", "Write `!=`."),
    ("\u{2190}", "U+2190", "Write `<-`."),
    (
        "\u{2192}",
        "U+2192",
        "A store is `sram(ADDRESS) <- VALUE;`.",
    ),
    (
        "\u{d7}",
        "U+00D7",
        "There is no product. Multiply by shifts and sums.",
    ),
    (
        "\u{f7}",
        "U+00F7",
        "There is no quotient. Divide by a shift or a loop.",
    ),
    (
        "\u{ac}",
        "U+00AC",
        "Write `!x` of a bool, and `~x` of a word.",
    ),
    ("\u{2026}", "U+2026", "Each part is written out."),
    (
        "\u{ff1b}",
        "U+FF1B",
        "It looks like `;`, which is written here.",
    ),
];

/// The one with which a text begins.
pub fn alike_at(rest: &[u8]) -> Option<Alike> {
    for it in &ALIKE {
        if rest.starts_with(it.0.as_bytes()) {
            return Some(Alike {
                text: it.0,
                number: it.1,
                help: it.2,
            });
        }
    }
    None
}

//! Pages of docs/FAULTS.md by their names.

ghost use Rattle.std.specs.Prelude.{◌≡◌, find, option_map};
ghost use Rattle.std.specs.Str.{bytes_eq};

use crate::input_pages::input_page;
use crate::source_pages::source_page;
use crate::status_pages::status_page;
use crate::type_pages::type_page;

/// A page: its name, and its text.
#[derive(Clone, Copy)]
pub struct Page {
    pub name: &'static str,
    pub text: &'static str,
}

/// The text of the page of a name. Which pages there are is data, a copy of docs/FAULTS.md that tests compare with it, so no clause repeats it.
pub fn page_of(name: &[u8]) -> Option<&'static str> {
    type_page(name)
        .or(source_page(name))
        .or(input_page(name))
        .or(status_page(name))
}

/// The text of the first page of a name among some pages.
pub fn page_among(pages: &[Page], name: &[u8]) -> Option<&'static str>
    ensures { option_map (λ text. text.now) result ≡ option_map (λ page. page.text.now) (find (λ page. bytes_eq page.name.now name.now) pages.now) }
{
    match pages.iter().find(|page| page.name.as_bytes() == name) {
        Some(page) => Some(page.text),
        None => None,
    }
}

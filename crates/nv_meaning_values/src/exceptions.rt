// The numbers of exceptions.

ghost use Rattle.std.specs.Prelude.{◌≡◌, ◌<◌, ℕ, List, IfSome};
ghost use Rattle.nv_meaning_values.specs.Running.{exception_number};
ghost use Rattle.nv_meaning_values.specs.inner.Places.{place_from};

/// The number of the exception at a place among those that are declared: they are numbered from 1,
/// and 0 is none.
pub fn exception_at(place: Option<usize>) -> u16
    requires { IfSome place (λ i. i < 65535) }
    ensures { (names : List (List ℕ)) (x : List ℕ) → place_from 0 x names ≡ place → result ≡ exception_number names x }
{
    match place {
        Some(i) => i as u16 + 1,
        None => 0,
    }
}

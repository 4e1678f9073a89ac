//! Laws of the bounds: each is the contract of a function that does nothing.
ghost use Rattle.std.specs.Prelude.{◌≡◌, ◌+◌, ◌*◌, ◌≤◌, ℕ};
ghost use Rattle.nv_base.specs.Measures.{Bulk, IsAtMost, of_size};
ghost use Rattle.ssu_make.specs.Bounds.{size_bound, length_bound};

/// With the expanded size and the room of a source, which bound its flat program, the size of its
/// single-use form and the code's bound are at most 48 times the expanded size times the room and 8.
pub fn bounds_of_a_source()
    ensures size { (expanded room wide : ℕ) (b : Bulk) → 1 ≤ expanded → 8 ≤ room → wide ≤ room → IsAtMost b (of_size expanded) → size_bound wide b ≤ 48 * (expanded * (room + 8)) }
    ensures code { (expanded room wide : ℕ) (b : Bulk) → 1 ≤ expanded → 8 ≤ room → wide ≤ room → IsAtMost b (of_size expanded) → length_bound wide b ≤ 48 * (expanded * (room + 8)) }
{}

//! Laws of the definitions in specs/: each is the contract of a function that does nothing.

ghost use Rattle.std.specs.Prelude.{◌≡◌, ◌≢◌, ◌<◌, ◌≤◌, ◌^◌, ◌∷◌, ◌++◌, ℕ, ℤ, Bool, IsTrue, true, not, ◌==◌, List, decimal};
ghost use Rattle.std.specs.Char.{digit_value};
ghost use Rattle.std.specs.Fmt.{signed_decimal};
ghost use Rattle.std.specs.List.{flat_map, list_all};
ghost use Rattle.std.specs.Int.Signed.{mag};
ghost use Rattle.nv_lines.specs.Line.{Lacks, AllLack, text_of, parts, parted};
ghost use Rattle.nv_lines.specs.Number.{SpellsWord, hex_word};
ghost use Rattle.nv_lines.specs.Format.{IsText, IsFormat, Begins, FirstFault, PassesLines};

/// A number has one decimal spelling and a spelling one number, and eight digits spell one word.
pub fn spellings_are_one()
    ensures decimal { (m n : ℕ) → m < 2 ^ 64 → n < 2 ^ 64 → decimal m ≡ decimal n → m ≡ n }
    ensures signed { (y z : ℤ) → mag y < 2 ^ 63 → mag z < 2 ^ 63 → signed_decimal y ≡ signed_decimal z → y ≡ z }
    ensures word { (spelling : List ℕ) (m n : ℕ) → SpellsWord spelling m → SpellsWord spelling n → m ≡ n }
    ensures written { (n : ℕ) → n < 2 ^ 32 → SpellsWord (hex_word n) n }
{}

/// A spelling has no byte that is no digit, but for the sign: no space, no line feed, no colon.
pub fn spellings_are_digits()
    ensures decimal { (c n : ℕ) → 10 ≤ digit_value c → n < 2 ^ 64 → Lacks c (decimal n) }
    ensures signed { (c : ℕ) (z : ℤ) → 10 ≤ digit_value c → c ≢ 45 → mag z < 2 ^ 63 → Lacks c (signed_decimal z) }
    ensures word { (c n : ℕ) (spelling : List ℕ) → 16 ≤ digit_value c → SpellsWord spelling n → Lacks c spelling }
{}

/// A list is split one way at the first byte c, a text one way into lines and what is left, and a line one way into
/// parts.
pub fn texts_are_parted_one_way()
    ensures split { (c : ℕ) (front rest front' rest' : List ℕ) → Lacks c front → Lacks c front' → front ++ c ∷ rest ≡ front' ++ c ∷ rest' → (front ≡ front') × (rest ≡ rest') }
    ensures lines { (xs ys : List (List ℕ)) (a b : List ℕ) → AllLack 10 xs → AllLack 10 ys → Lacks 10 a → Lacks 10 b → text_of xs ++ a ≡ text_of ys ++ b → (xs ≡ ys) × (a ≡ b) }
    ensures parts { (p : List ℕ) (ps : List (List ℕ)) → AllLack 32 (p ∷ ps) → parts (parted (p ∷ ps)) ≡ p ∷ ps }
    ensures spaced { (p : List ℕ) (ps : List (List ℕ)) → parted (p ∷ ps) ≡ p ++ flat_map (λ q. 32 ∷ q) ps }
    ensures tested { (c : ℕ) (xs : List ℕ) → list_all (λ b. not (b == c)) xs ≡ true → Lacks c xs }
    ensures parted { (line : List ℕ) → parted (parts line) ≡ line }
{}

/// A text of a format, here one that is told by tests, has no faulty line, and of other bytes one line is the first
/// faulty one.
pub fn first_faults_are_one()
    ensures none { (front whole : List (List ℕ) → Bool) (bytes : List ℕ) (n : ℕ) → IsFormat (PassesLines front) (PassesLines whole) → FirstFault (PassesLines front) (PassesLines whole) bytes n → ¬ IsText (PassesLines whole) bytes }
    ensures one { (front whole : List (List ℕ) → Bool) (bytes : List ℕ) (m n : ℕ) → IsFormat (PassesLines front) (PassesLines whole) → FirstFault (PassesLines front) (PassesLines whole) bytes m → FirstFault (PassesLines front) (PassesLines whole) bytes n → m ≡ n }
    ensures begins { (whole : List (List ℕ) → Bool) → ((ls : List (List ℕ)) → IsTrue (whole ls) → AllLack 10 ls) → IsFormat (Begins (PassesLines whole)) (PassesLines whole) }
{}

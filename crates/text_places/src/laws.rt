// A law of places: the contract of a function with nothing to do.
ghost use Rattle.std.specs.Prelude.{◌≡◌, ◌≤◌, ℕ, List};
ghost use Rattle.text_places.specs.Places.{place_of};

/// As offsets rise no line falls, and in a line no column.
pub fn places_ascend()
    ensures lines { (bytes : List ℕ) (m n : ℕ) → m ≤ n → (place_of bytes m).line ≤ (place_of bytes n).line }
    ensures columns { (bytes : List ℕ) (m n : ℕ) → m ≤ n → (place_of bytes m).line ≡ (place_of bytes n).line →
        (place_of bytes m).column ≤ (place_of bytes n).column }
{}

// Laws over the definitions: each is the contract of a function with nothing to do.
ghost use Rattle.std.specs.Prelude.{◌≡◌, ◌<◌, ◌+◌, ◌++◌, ◌∷◌, [], ℕ, List, Bool, true, false, Option, None, Some, length, take, get_or};
ghost use Rattle.text_patterns.specs.Patterns.{Pattern, Matches};
ghost use Rattle.text_patterns.specs.Derivatives.{derivative, nullable, after, alike, is_barren, is_shut, SameIn};
ghost use Rattle.text_patterns.specs.Machines.{Machine, IsMachine, Spells, IsFirst, HasNone, IsOpen, Settles, Reads, last_after};
ghost use Rattle.text_patterns.specs.Tables.{Table, IsTable, machine};

/// The derivative's texts are those that complete the character to one of the pattern's.
pub fn derivatives_complete()
    ensures completes { (p : Pattern) (c : ℕ) (s : List ℕ) → Matches (derivative p c) s → Matches p (c ∷ s) }
    ensures all { (p : Pattern) (c : ℕ) (s : List ℕ) → Matches p (c ∷ s) → Matches (derivative p c) s }
{}

/// What stands after a text completes it to one of the pattern's.
pub fn rests_complete()
    ensures completes { (p : Pattern) (s t : List ℕ) → Matches (after p s) t → Matches p (s ++ t) }
    ensures all { (p : Pattern) (s t : List ℕ) → Matches p (s ++ t) → Matches (after p s) t }
{}

/// A pattern is nullable exactly where the empty text is one of its texts.
pub fn nullable_patterns_take_nothing()
    ensures takes { (p : Pattern) → nullable p ≡ true → Matches p [] }
    ensures only { (p : Pattern) → Matches p [] → nullable p ≡ true }
{}

/// A pattern is barren exactly where it has no text.
pub fn barren_patterns_take_none()
    ensures none { (p : Pattern) (s : List ℕ) → is_barren p ≡ true → Matches p s → ⊥ }
    ensures only { (p : Pattern) → is_barren p ≡ false → (s : List ℕ) × Matches p s }
{}

/// A shut pattern has no text but the empty one.
pub fn shut_patterns_end()
    ensures { (p : Pattern) (s : List ℕ) → is_shut p ≡ true → Matches p s → s ≡ [] }
{}

/// Patterns that are alike have the same texts.
pub fn alike_patterns_match()
    ensures first { (p q : Pattern) (s : List ℕ) → alike p q ≡ true → Matches p s → Matches q s }
    ensures second { (p q : Pattern) (s : List ℕ) → alike p q ≡ true → Matches q s → Matches p s }
{}

/// Characters that no class of the pattern tells apart have the same derivative, also behind a text.
pub fn same_characters_derive()
    ensures same { (p : Pattern) (c d : ℕ) → SameIn p c d → derivative p c ≡ derivative p d }
    ensures behind { (p : Pattern) (s : List ℕ) (c d : ℕ) → SameIn p c d → SameIn (after p s) c d }
{}

/// A table whose tests pass is a machine for its spellings.
pub fn tables_are_machines<State, Kind, Class>()
    ensures { (t : Table State Kind Class) → IsTable t → IsMachine (machine t) }
{}

/// The machine has read nothing at its start, and one character more after each step.
pub fn machines_read<State, Kind>()
    ensures starts { (m : Machine State Kind) → IsMachine m → (text : List ℕ) → Reads m text 0 m.start None }
    ensures steps { (m : Machine State Kind) → IsMachine m →
        (text : List ℕ) (i : ℕ) (p q : State) (last : Option (Kind × ℕ)) → i < length text → get_or text i 0 < 0x110000 →
        Reads m text i p last → m.next p (get_or text i 0) ≡ Some q → Reads m text (i + 1) q (last_after (m.accepts q) last (i + 1)) }
{}

/// What is read begins a spelling, and where no step goes on one character more does not: the place of a fault of form.
pub fn machines_stop<State, Kind>()
    ensures begins { (m : Machine State Kind) → IsMachine m → (text : List ℕ) (i : ℕ) (q : State) (last : Option (Kind × ℕ)) →
        Reads m text i q last → (k : Kind) × (more : List ℕ) × Spells m k (take i text ++ more) }
    ensures stops { (m : Machine State Kind) → IsMachine m → (text : List ℕ) (i : ℕ) (q : State) (last : Option (Kind × ℕ)) →
        i < length text → get_or text i 0 < 0x110000 → Reads m text i q last → m.next q (get_or text i 0) ≡ None →
        (k : Kind) (more : List ℕ) → Spells m k (take (i + 1) text ++ more) → ⊥ }
{}

/// A text that is read to its end spells a kind exactly where the last state accepts it.
pub fn machines_decide<State, Kind>()
    ensures spelled { (m : Machine State Kind) → IsMachine m → (text : List ℕ) (q : State) (last : Option (Kind × ℕ)) →
        Reads m text (length text) q last → (k : Kind) → m.accepts q ≡ Some k → Spells m k text }
    ensures accepted { (m : Machine State Kind) → IsMachine m → (text : List ℕ) (q : State) (last : Option (Kind × ℕ)) →
        Reads m text (length text) q last → (k : Kind) → Spells m k text → m.accepts q ≡ Some k }
{}

/// Where no step goes on, or none can, the last end is the longest spelling at the front, however the text goes on.
pub fn machines_settle<State, Kind>()
    ensures dead { (m : Machine State Kind) → IsMachine m → m.accepts m.start ≡ None →
        (text : List ℕ) (i : ℕ) (q : State) (last : Option (Kind × ℕ)) → i < length text → get_or text i 0 < 0x110000 →
        Reads m text i q last → m.next q (get_or text i 0) ≡ None → Settles m last text }
    ensures closed { (m : Machine State Kind) → IsMachine m → m.accepts m.start ≡ None →
        (text : List ℕ) (q : State) (last : Option (Kind × ℕ)) → Reads m text (length text) q last → m.is_final q ≡ true → Settles m last text }
    ensures open_ended { (m : Machine State Kind) → IsMachine m → (text : List ℕ) (q : State) (last : Option (Kind × ℕ)) →
        Reads m text (length text) q last → m.is_final q ≡ false → IsOpen m text }
{}

/// At the end of a text the last end is the longest spelling at its front, and where there is none no front is one.
pub fn machines_end<State, Kind>()
    ensures first { (m : Machine State Kind) → IsMachine m → m.accepts m.start ≡ None → (text : List ℕ) (q : State) (kind : Kind) (n : ℕ) →
        Reads m text (length text) q (Some (kind, n)) → IsFirst m text kind n }
    ensures none { (m : Machine State Kind) → IsMachine m → m.accepts m.start ≡ None → (text : List ℕ) (q : State) →
        Reads m text (length text) q None → HasNone m text }
{}

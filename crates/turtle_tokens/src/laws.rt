// Laws over the definitions: each is the contract of a function with nothing to do.
ghost use Rattle.std.specs.Prelude.{ℕ, List, ◌≡◌};
ghost use Rattle.text_patterns.specs.Machines.{IsMachine};
ghost use Rattle.turtle_tokens.specs.Machine.{turtle};
ghost use Rattle.token_scanner.specs.Texts.{AreChars};
ghost use Rattle.token_scanner.specs.declared.place.Place.{Place};
ghost use Rattle.turtle_tokens.specs.Scanning.{Items, items, AreItems};

/// The table's steps are those of the terminals' spellings.
pub fn table_is_a_machine()
    ensures { IsMachine turtle }
{}

/// The items of a text are its tokens, each the longest spelling behind a gap, and how the text stops.
pub fn texts_have_items()
    ensures { (p : Place) (text : List ℕ) (at : ℕ) → AreChars text → AreItems p text at (items p 0 text at) }
{}

/// A text has one list of items.
pub fn items_are_unique()
    ensures { (p : Place) (text : List ℕ) (at : ℕ) (i j : Items) → AreChars text → AreItems p text at i → AreItems p text at j → i ≡ j }
{}

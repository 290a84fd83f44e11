// Laws over the definitions: each is the contract of a function with nothing to do.
ghost use Rattle.std.specs.Prelude.{◌≡◌, ◌<◌, ◌≤◌, ℕ, List, true, length, take, get_or};
ghost use Rattle.text_patterns.specs.Patterns.{Matches, Begins};
ghost use Rattle.time_primitive.specs.declared.form.Form.{Form};
ghost use Rattle.time_primitive.specs.declared.form.Datatype.{Datatype};
ghost use Rattle.time_primitive.specs.Forms.{spelling, forms_of, has_form, begins, front};
ghost use Rattle.time_primitive.specs.Machine.{is_taken};
ghost use Rattle.time_primitive.specs.Parts.{digit_at, places, AreDigits};

/// A text has a form exactly where it is one of the form's texts.
pub fn forms_are_spelled()
    ensures has { (form : Form) (text : List ℕ) → has_form text form ≡ true → Matches (spelling form) text }
    ensures all { (form : Form) (text : List ℕ) → Matches (spelling form) text → has_form text form ≡ true }
{}

/// No text has two forms.
pub fn no_text_has_two_forms()
    ensures { (f g : Form) (text : List ℕ) → ((k : ℕ) → k < length text → get_or text k 0 < 256) → Matches (spelling f) text → Matches (spelling g) text → f ≡ g }
{}

/// A text begins some text of a datatype exactly where it begins one of a form that the datatype takes.
pub fn begun_texts_go_on()
    ensures on { (datatype : Datatype) (text : List ℕ) → begins (forms_of datatype) text ≡ true → (form : Form) × (is_taken datatype form ≡ true) × Begins (spelling form) text }
    ensures all { (datatype : Datatype) (text : List ℕ) (form : Form) → is_taken datatype form ≡ true → Begins (spelling form) text → begins (forms_of datatype) text ≡ true }
{}

/// The front of a text begins some text of the datatype, and no longer one does: it is the place of a fault of form.
pub fn fronts_are_longest()
    ensures begun { (datatype : Datatype) (text : List ℕ) → begins (forms_of datatype) (take (front (forms_of datatype) text) text) ≡ true }
    ensures longest { (datatype : Datatype) (text : List ℕ) (n : ℕ) → n ≤ length text → begins (forms_of datatype) (take n text) ≡ true → n ≤ front (forms_of datatype) text }
{}

/// A year with more than four digits, of which the first isn't zero, is above 9999; one with at most four is not.
pub fn long_years_are_out_of_range()
    ensures more { (digits : List ℕ) → 0 < digit_at digits 0 → 4 < length digits → 9999 < places digits (length digits) }
    ensures few { (digits : List ℕ) → AreDigits digits → length digits ≤ 4 → places digits (length digits) ≤ 9999 }
{}

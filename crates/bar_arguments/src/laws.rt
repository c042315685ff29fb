//! Which values the options of a command take.
ghost use Rattle.std.specs.Prelude.{◌≡◌, ◌∷◌, [], ℕ, List, Some, None, is_some, true, codes};
ghost use Rattle.bar_arguments.specs.Options.{each_has_value, is_taken, values_of};
ghost use Rattle.bar_arguments.specs.Worked.{names};

/// Two options, `key` and `found`, in both forms and in any order. A value may be empty or a single dash. A value that begins with a dash
/// is accepted only after an equals sign. Each option occurs exactly once, and there are no other arguments.
pub fn worked_lines()
    ensures pairs { values_of names (codes "--found" ∷ codes "f" ∷ codes "--key=k" ∷ []) ≡ Some (codes "k" ∷ codes "f" ∷ []) }
    ensures empty { values_of names (codes "--found" ∷ [] ∷ codes "--key=" ∷ []) ≡ Some ([] ∷ [] ∷ []) }
    ensures dash { values_of names (codes "--found" ∷ codes "-" ∷ codes "--key=k" ∷ []) ≡ Some (codes "k" ∷ codes "-" ∷ []) }
    ensures dashed { values_of names (codes "--found" ∷ codes "-f" ∷ codes "--key=k" ∷ []) ≡ None }
    ensures dashes { values_of names (codes "--found" ∷ codes "--" ∷ codes "f" ∷ codes "--key=k" ∷ []) ≡ None }
    ensures equals { values_of names (codes "--found=--key" ∷ codes "--key=a=b" ∷ []) ≡ Some (codes "a=b" ∷ codes "--key" ∷ []) }
    ensures twice { values_of names (codes "--found=f" ∷ codes "--key=k" ∷ codes "--key=k" ∷ []) ≡ None }
    ensures missing { values_of names (codes "--found=f" ∷ []) ≡ None }
    ensures stray { values_of names (codes "--found=f" ∷ codes "x" ∷ codes "--key=k" ∷ []) ≡ None }
    ensures help { values_of names (codes "--found=f" ∷ codes "--key=k" ∷ codes "--help" ∷ []) ≡ None }
    ensures short { values_of names (codes "--found=f" ∷ codes "--ke=k" ∷ []) ≡ None }
    ensures end { values_of names (codes "--found=f" ∷ codes "--key=k" ∷ codes "--" ∷ []) ≡ Some (codes "k" ∷ codes "f" ∷ []) }
{}

/// Arguments that are accepted give each option a value.
pub fn taken_words_have_values()
    ensures each { (names words : List (List ℕ)) → is_taken names words ≡ true → each_has_value names words ≡ true }
    ensures values { (names words : List (List ℕ)) → is_some (values_of names words) ≡ is_taken names words }
{}

// What the text of a key tells of its card file.
ghost use Rattle.std.specs.Prelude.{◌≡◌, ℕ, List};
ghost use Rattle.printed_key.specs.Key.{key_text};
ghost use Rattle.printed_key.specs.Telling.{Ends, Branchless, OneKey};

// The key of a refused circuit is one line, and that of a circuit without a branch is `tree`. Where two keys are one text,
// the answers in them are the same.
pub fn keys_tell()
    ensures ends { (input : List ℕ) → Ends input }
    ensures branchless { (input : List ℕ) → Branchless input }
    ensures apart { (input other : List ℕ) → key_text input ≡ key_text other → OneKey input other }
{}

// Sets of branches as words: bit k stands for the number k.
// A caller is handed words, one for a tree and two for a row, so a set has no type of its own, and each call answers for any
// number.
ghost use Rattle.std.specs.Prelude.{◌≡◌, ℕ, ◌<◌, ◌≤◌, Bool, ◌||◌, if◌then◌else◌};
ghost use Rattle.graphs.specs.Graph.{Set, with, without, both};
ghost use Rattle.networks.specs.Words.{bits, except, under, first};

pub fn has(word: u32, k: u32) -> bool
    ensures { result ≡ bits word k }
{
    k < 32 && word >> k & 1 == 1
}

// The word with k, where that is asked for; the word itself where it has no place for k.
pub fn insert_if(word: u32, k: u32, holds: bool) -> u32
    ensures within { k < 32 → bits result ≡ (if holds then with (bits word) k else bits word) }
    ensures past { 32 ≤ k → result ≡ word }
{
    if holds && k < 32 { word | 1 << k } else { word }
}

pub fn remove(word: u32, k: u32) -> u32
    ensures { bits result ≡ without (bits word) k }
{
    if k < 32 { less(word, 1 << k) } else { word }
}

pub fn common(a: u32, b: u32) -> u32
    ensures { bits result ≡ both (bits a) (bits b) }
{
    a & b
}

// The numbers of a and those of b.
pub fn either(a: u32, b: u32) -> u32
    ensures { (k : ℕ) → bits result k ≡ (bits a k || bits b k) }
{
    a | b
}

// The numbers of a that are not in b.
pub fn less(a: u32, b: u32) -> u32
    ensures { bits result ≡ except (bits a) (bits b) }
{
    a ^ (a & b)
}

// The lowest number of the word.
pub fn lowest(word: u32) -> Option<u32>
    ensures { result ≡ first (bits word) }
{
    (word != 0).then(|| word.trailing_zeros())
}

// The numbers below 32 that pass.
pub(crate) fn numbers_where<F: Fn(u32) -> bool>(passes: F) -> u32
    requires { F.IsAlwaysCallable passes }
    ensures { (S : Set) → ((k : ℕ) (b : Bool) → k < 32 → F.post passes k b → b ≡ S k) → bits result ≡ under S 32 }
{
    let mut word = 0;
    for k in 0..32 {
        word = insert_if(word, k, passes(k));
    }
    word
}

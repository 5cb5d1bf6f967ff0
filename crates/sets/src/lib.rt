// Sets of states in words: state s is bit s mod 64 of word s / 64.
#![tactic(auto)]

ghost use Rattle.std.specs.Prelude.{◌≡◌, true, false, not, [], ◌∷◌, ◌&&◌, ◌||◌, map, ◌++◌, ℕ, ◌<◌, ◌≤◌, length, get_or, set, take, drop};
ghost use Rattle.std.specs.Int.Count.{ones};
ghost use Rattle.sets.specs.Lists.{numbers_from};
ghost use Rattle.sets.specs.States.{States, has, start};
ghost use Rattle.sets.specs.Words.{words, number_of_bits, marked, word_count, state_limit};
ghost use Rattle.sets.specs.internal.Size.{SizeIs};

use std::array;

pub const WORDS: usize = 4;

pub const STATES: usize = 64 * WORDS;

// A set is its words by value, as marks and arrays of sets hold it. So the contracts say which set the words hold, of any number of states, and no struct does.
pub type Set = [u64; WORDS];

// No state.
#[tactic(auto, using(crate::proofs::Words::words_none))]
pub fn empty() -> Set
    ensures { (n : ℕ) → result ≡ words word_count (start n false) }
{
    [0; WORDS]
}

// The word of the 64 states from `from` on: those below n.
#[tactic(auto, using(crate::proofs::Words::word_whole, crate::proofs::Words::word_partial))]
fn word_below(n: usize, from: usize) -> u64
    ensures { result ≡ number_of_bits (take 64 (drop from (start n true))) }
{
    let left = n.saturating_sub(from);
    if 64 <= left { !0 } else { (1 << left) - 1 }
}

// Every state below n. This, `initial` and `complement` ask that a set has room for n states; a type for such a number would be no plainer.
pub fn full(n: usize) -> Set
    requires { n ≤ state_limit }
    ensures { result ≡ words word_count (start n true) }
{
    array::from_fn(|i| word_below(n, 64 * i))
}

// Where an iteration starts: no state for mu, every state below n for nu. Which it is, is a truth value here, as the sign of a block is in the paper and in `start`:
// it is data that is read from a file, and two functions would have the caller choose by it, no plainer.
pub fn initial(n: usize, nu: bool) -> Set
    requires { n ≤ state_limit }
    ensures { result ≡ words word_count (start n nu) }
{
    if nu { full(n) } else { empty() }
}

// Whether bit x of a word is 1.
#[tactic(auto, unfolding(crate::specs::Words::marked))]
pub fn has_bit(word: u64, x: usize) -> bool
    requires { x < 64 }
    ensures { result ≡ marked (word ∷ []) x }
{
    (word >> x) % 2 == 1
}

// Whether state s is in the set.
#[tactic(auto, unfolding(crate::specs::Words::marked))]
pub fn test(set: &Set, s: usize) -> bool
    requires { s < state_limit }
    ensures { result ≡ marked set.now s }
{
    has_bit(set[s / 64], s % 64)
}

// Puts state s into the set, or takes it out. Which of the two is a truth value: to the solver it is data, the value of a right-hand side, and two functions would have
// it choose by it, no plainer.
pub fn put(held: &mut Set, s: usize, there: bool)
    requires { s < state_limit }
    ensures { (v : States) → s < length v → held.old ≡ words word_count v → held.new ≡ words word_count (set v s there) }
{
    let word = held[s / 64];
    let mask = 1 << (s % 64);
    held[s / 64] = if there { word | mask } else { word & !mask };
}

// How many bits of a word are 1, as a size. It has a name, since what it answers is one of the promises of the project.
fn word_ones(word: u64) -> usize
    ensures { (result ≡ ones word) × (result ≤ 64) }
{
    word.count_ones() as usize
}

// How many states a set has: the sum of the ones of its words.
pub fn count(set: &Set) -> usize
    ensures { SizeIs set.now result }
{
    set.iter().map(|word| word_ones(*word)).sum()
}

// The words that an operation makes of the words of two sets, place by place.
fn zip_words<F: Fn(u64, u64) -> u64>(a: Set, b: Set, op: F) -> Set
    requires { F.IsAlwaysCallable op }
    ensures long { length result ≡ word_count }
    ensures each { (j : ℕ) → j < word_count → F.post op (get_or a j 0) (get_or b j 0) (get_or result j 0) }
{
    array::from_fn(|i| op(a[i], b[i]))
}

// The states in at least one of two sets.
pub fn union(a: Set, b: Set) -> Set
    ensures { (n : ℕ) (v w : States) → length v ≡ n → length w ≡ n → a ≡ words word_count v → b ≡ words word_count w
        → result ≡ words word_count (map (λ s. has v s || has w s) (numbers_from 0 n)) }
{
    zip_words(a, b, |x, y| x | y)
}

// The states in both of two sets.
pub fn intersection(a: Set, b: Set) -> Set
    ensures { (n : ℕ) (v w : States) → length v ≡ n → length w ≡ n → a ≡ words word_count v → b ≡ words word_count w
        → result ≡ words word_count (map (λ s. has v s && has w s) (numbers_from 0 n)) }
{
    zip_words(a, b, |x, y| x & y)
}

// The states below n that are not in the set: each bit of a state below n is turned over.
pub fn complement(held: Set, n: usize) -> Set
    requires { n ≤ state_limit }
    ensures { (v : States) → length v ≡ n → held ≡ words word_count v → result ≡ words word_count (map not v) }
{
    zip_words(full(n), held, |x, y| x ^ y)
}

// Puts a set into the first words. Written out at its callers it would be no plainer: each would show anew that there are so many words.
pub fn store(marks: &mut [u64], row: Set)
    requires { word_count ≤ length marks.old }
    ensures { marks.new ≡ row ++ drop word_count marks.old }
{
    *marks.first_chunk_mut().unwrap() = row;
}

// The set in the first words, by the library's method; as with `store`, written out it would be no plainer.
pub fn load(marks: &[u64]) -> Set
    requires { word_count ≤ length marks.now }
    ensures { result ≡ take word_count marks.now }
{
    *marks.first_chunk().unwrap()
}

//! Sets of numbers as bits of words: which indices of a ring hold a byte. The bytes stand elsewhere.
ghost use Rattle.std.specs.Prelude.{◌≡◌, ◌+◌, ◌*◌, ◌/◌, ◌<◌, ◌≤◌, ◌==◌, ℕ, not, length, get_or};
ghost use Rattle.std.specs.Int.{bit_at};
ghost use Rattle.efi_window.specs.Kept.{is_kept};

/// How many bits a word has.
const WORD: usize = 64;

/// How many words have a bit for each of so many indices.
pub fn words_for(count: usize) -> usize
    ensures enough { count ≤ 64 * result }
    ensures least { (words : ℕ) → count ≤ 64 * words → result ≤ words }
{
    count.div_ceil(WORD)
}

/// How many zeros stand in a word from a bit on.
fn zeros_from(word: u64, from: usize) -> usize
    requires { from < 64 }
    ensures within { from + result ≤ 64 }
    ensures zeros { (i : ℕ) → from ≤ i → i < from + result → bit_at word i ≡ 0 }
    ensures ends { from + result < 64 → bit_at word (from + result) ≡ 1 }
{
    let rest = word >> from;
    if rest == 0 {
        return WORD - from;
    }
    rest.trailing_zeros() as usize
}

/// How many bits in a word, from one on, are all set or all clear.
fn alike_from(word: u64, set: bool, from: usize) -> usize
    requires { from < 64 }
    ensures within { from + result ≤ 64 }
    ensures alike { (i : ℕ) → from ≤ i → i < from + result → (bit_at word i == 1) ≡ set }
    ensures ends { from + result < 64 → (bit_at word (from + result) == 1) ≡ not set }
{
    if set {
        return zeros_from(!word, from);
    }
    zeros_from(word, from)
}

/// A word of which each bit is set, or clear.
fn whole_word(set: bool) -> u64
    ensures { (i : ℕ) → i < 64 → (bit_at result i == 1) ≡ set }
{
    if set {
        return u64::MAX;
    }
    0
}

/// The first word from one on, below an end, that isn't this one.
fn words_end(words: &[u64], word: u64, from: usize, end: usize) -> usize
    requires order { from ≤ end }
    requires within { end ≤ length words.now }
    ensures least { from ≤ result }
    ensures most { result ≤ end }
    ensures alike { (k : ℕ) → from ≤ k → k < result → get_or words.now k 0 ≡ word }
{
    let mut at = from;
    while at < end && words[at] == word {
        at += 1;
    }
    at
}

/// Where the run of indices that are all set, or all clear, ends: from one index on, up to an end. Words that are whole are
/// passed over at once.
pub fn run_end(words: &[u64], set: bool, from: usize, end: usize) -> usize
    requires order { from ≤ end }
    requires within { end ≤ 64 * length words.now }
    ensures least { from ≤ result }
    ensures most { result ≤ end }
    ensures alike { (i : ℕ) → from ≤ i → i < result → is_kept words.now i ≡ set }
    ensures ends { result < end → is_kept words.now result ≡ not set }
{
    let mut at = from;
    while at < end {
        let low = at % WORD;
        let run = alike_from(words[at / WORD], set, low);
        if end - at <= run {
            return end;
        }
        if low + run < WORD {
            return at + run;
        }
        at = WORD * words_end(words, whole_word(set), (at + run) / WORD, end / WORD);
    }
    end
}

/// A word whose bits from one up to another are set, and no others.
fn mask(low: usize, high: usize) -> u64
    requires order { low < high }
    requires within { high ≤ 64 }
    ensures inside { (i : ℕ) → low ≤ i → i < high → bit_at result i ≡ 1 }
    ensures below { (i : ℕ) → i < low → bit_at result i ≡ 0 }
    ensures above { (i : ℕ) → high ≤ i → bit_at result i ≡ 0 }
{
    (u64::MAX << low) & (u64::MAX >> (WORD - high))
}

/// The word whose bits from one up to another are set, or cleared, and the others are as they were.
fn with_run(word: u64, set: bool, low: usize, high: usize) -> u64
    requires order { low < high }
    requires within { high ≤ 64 }
    ensures inside { (i : ℕ) → low ≤ i → i < high → (bit_at result i == 1) ≡ set }
    ensures below { (i : ℕ) → i < low → bit_at result i ≡ bit_at word i }
    ensures above { (i : ℕ) → high ≤ i → i < 64 → bit_at result i ≡ bit_at word i }
{
    let run = mask(low, high);
    if set {
        return word | run;
    }
    word & !run
}

/// Sets or clears the indices from one up to another.
pub fn mark(words: &mut [u64], set: bool, from: usize, end: usize)
    requires order { from ≤ end }
    requires within { end ≤ 64 * length words.old }
    ensures len { length words.new ≡ length words.old }
    ensures inside { (i : ℕ) → from ≤ i → i < end → is_kept words.new i ≡ set }
    ensures below { (i : ℕ) → i < from → is_kept words.new i ≡ is_kept words.old i }
    ensures above { (i : ℕ) → end ≤ i → is_kept words.new i ≡ is_kept words.old i }
{
    let mut at = from;
    while at < end {
        let low = at % WORD;
        let high = WORD.min(low + (end - at));
        words[at / WORD] = with_run(words[at / WORD], set, low, high);
        at += high - low;
    }
}

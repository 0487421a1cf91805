//! Which bytes of a heap are there: one bit for each, 64 to a word, so that a packet's bytes are
//! looked up and marked by whole words.

ghost use Rattle.std.specs.Prelude.{◌≡◌, ◌+◌, ◌-◌, ◌*◌, ◌^◌, ◌<◌, ◌≤◌, ℕ, length, IfOk, vec_len};
ghost use Rattle.std.specs.Int.{bit_at};
ghost use Rattle.heap_assembly.specs.Marks.{mark_at, any_marked, Marks};

use std::alloc::{AllocError, Global};

// The bits of a word that stand for the places from `from` up to `to`, where the word's first place
// is `start`.
fn mask_of(start: usize, from: usize, to: usize) -> u64
    requires small { start ≤ 2 ^ 33 }
    requires begins { from < start + 64 }
    requires ends { start < to }
    ensures inside { (i : ℕ) → i < 64 → from ≤ start + i → start + i < to → bit_at result i ≡ 1 }
    ensures below { (i : ℕ) → i < 64 → start + i < from → bit_at result i ≡ 0 }
    ensures above { (i : ℕ) → i < 64 → to ≤ start + i → bit_at result i ≡ 0 }
{
    let low = from.saturating_sub(start);
    let high = (to - start).min(64);
    (u64::MAX >> (64 - high)) & (u64::MAX << low)
}

// Whether one of the places from `from` up to `to` is marked, by a mask for each word.
fn any_by_masks(words: &[u64], from: usize, to: usize) -> bool
    requires small { length words.now ≤ 2 ^ 26 }
    requires room { to ≤ 64 * length words.now }
    ensures { result ≡ any_marked (mark_at words.now) from (to - from) }
{
    for word in from / 64..to.div_ceil(64) {
        if words[word] & mask_of(64 * word, from, to) != 0 {
            return true;
        }
    }
    false
}

// Whether a place of the words from `first` up to `last` is marked.
fn any_in_words(words: &[u64], first: usize, last: usize) -> bool
    requires room { last ≤ length words.now }
    requires order { first ≤ last }
    ensures { result ≡ any_marked (mark_at words.now) (64 * first) (64 * last - 64 * first) }
{
    for word in first..last {
        if words[word] != 0 {
            return true;
        }
    }
    false
}

/// Whether one of the places from `from` up to `to` is marked.
pub(crate) fn any_in(words: &[u64], from: usize, to: usize) -> bool
    requires small { length words.now ≤ 2 ^ 26 }
    requires room { to ≤ 64 * length words.now }
    ensures { result ≡ any_marked (mark_at words.now) from (to - from) }
{
    // The words whose places are all in the range.
    let first = from.div_ceil(64);
    let last = to / 64;
    if last <= first {
        return any_by_masks(words, from, to);
    }
    if any_by_masks(words, from, 64 * first) {
        return true;
    }
    if any_in_words(words, first, last) {
        return true;
    }
    any_by_masks(words, 64 * last, to)
}

// Marks the places from `from` up to `to`, by a mask for each word.
fn mark_by_masks(words: &mut [u64], from: usize, to: usize)
    requires small { length words.old ≤ 2 ^ 26 }
    requires room { to ≤ 64 * length words.old }
    requires order { from ≤ to }
    ensures { Marks (mark_at words.old) (mark_at words.new) from to }
{
    for word in from / 64..to.div_ceil(64) {
        words[word] |= mask_of(64 * word, from, to);
    }
}

// Marks the places of the words from `first` up to `last`.
fn mark_words(words: &mut [u64], first: usize, last: usize)
    requires order { first ≤ last }
    requires room { last ≤ length words.old }
    ensures { Marks (mark_at words.old) (mark_at words.new) (64 * first) (64 * last) }
{
    words[first..last].fill(u64::MAX);
}

/// Marks the places from `from` up to `to`.
pub(crate) fn mark(words: &mut [u64], from: usize, to: usize)
    requires small { length words.old ≤ 2 ^ 26 }
    requires room { to ≤ 64 * length words.old }
    requires order { from ≤ to }
    ensures { Marks (mark_at words.old) (mark_at words.new) from to }
{
    // The words whose places are all in the range.
    let first = from.div_ceil(64);
    let last = to / 64;
    if last <= first {
        mark_by_masks(words, from, to);
        return;
    }
    mark_by_masks(words, from, 64 * first);
    mark_words(words, first, last);
    mark_by_masks(words, 64 * last, to);
}

/// Takes all marks away, where none stands from `to` on.
pub(crate) fn clear(words: &mut [u64], to: usize)
    requires room { to ≤ 64 * length words.old }
    requires ends { (i : ℕ) → to ≤ i → mark_at words.old i ≡ 0 }
    ensures { (i : ℕ) → mark_at words.new i ≡ 0 }
{
    words[..to.div_ceil(64)].fill(0);
}

/// A map of so many places, none of them marked.
pub(crate) fn unmarked(alloc: Global, places: usize) -> Result<Vec<u64>, AllocError>
    ensures room { IfOk result (λ words. places ≤ 64 * vec_len words) }
    ensures few { IfOk result (λ words. 64 * vec_len words < places + 64) }
    ensures none { IfOk result (λ words. (i : ℕ) → mark_at words.items i ≡ 0) }
{
    Ok(vec![in alloc; 0; places.div_ceil(64)]?)
}

// The stored list: little-endian words in records, each `op n w1 .. wn`; and the comparisons that the replay makes with them.
//
// Every read is total: past the end of the list, or of a record, a word reads 0.
#![tactic(auto)]

ghost use Rattle.std.specs.Prelude.{◌≡◌, ℕ, ◌/◌, ◌≤◌, ◌&&◌, Bool, leb, get_or, length, take, drop};
ghost use Rattle.words.specs.Words.{word_of, written, tabled, word_no, number_no};
ghost use Rattle.words.specs.Same.{every, holds_of, hold_numbers_of};
ghost use Rattle.words.specs.Tally.{bumped};

use std::io::Read;
use table::{at, put};
use vertex::{bits_of, float_of};

// ---- bytes from a file

// Reads until buf is full, the input ends or a read fails: how many bytes it put at the start of buf. It goes on by what a read gave, and
// so by no fixed step.
pub fn read_full<R: Read>(from: &mut R, buf: &mut [u8]) -> usize
    ensures { result ≤ length buf.new }
{
    let mut done = 0;
    while done < buf.len() {
        let n = from.read(&mut buf[done..]).unwrap_or(0);
        if n == 0 {
            break;
        }
        done += n;
    }
    done
}

// ---- bytes to words

// A word of its four bytes, the lowest first.
fn word_of(a: u8, b: u8, c: u8, d: u8) -> u32
    ensures { result ≡ word_of a b c d }
{
    u32::from_le_bytes([a, b, c, d])
}

// The bytes as words, written from entry `base` on. One to three bytes left at the end are no word.
pub fn decode(s: &[u8], base: u32, words: &mut [u32])
    ensures { words.new ≡ written (length s.now / 4) base (word_no s.now) words.old }
{
    for (k, b) in s.chunks_exact(4).enumerate() {
        put(words, base as usize + k, word_of(b[0], b[1], b[2], b[3]));
    }
}

// The next buffer of a file, as words from entry n on: how many bytes it has.
pub fn read_words<R: Read>(from: &mut R, n: u32, words: &mut [u32]) -> u32
    ensures { result ≤ 65536 }
{
    let mut bytes = [0u8; 65536];
    let got = read_full(from, &mut bytes);
    decode(&bytes[..got], n, words);
    got as u32
}

// ---- parts of a record

// The entries from a on.
pub fn past(l: &[u32], a: usize) -> &[u32]
    ensures { result.now ≡ drop a l.now }
{
    &l[a.min(l.len())..]
}

// The first n entries.
pub fn first<T>(l: &[T], n: usize) -> &[T]
    ensures { result.now ≡ take n l.now }
{
    &l[..n.min(l.len())]
}

// The floats of which the words are the bits, and then those of `rest`.
pub fn put_numbers(w: &[u32], rest: u32, to: &mut [f32])
    ensures { to.new ≡ tabled (length to.old) (number_no w.now rest) }
{
    for (k, x) in to.iter_mut().enumerate() {
        *x = float_of(at(w, k, rest));
    }
}

// ---- comparing

// Whether l holds the same as the words, and then, to its length, as `rest` everywhere.
fn holds_same<T: Copy, F: Fn(T, u32) -> bool>(l: &[T], w: &[u32], rest: u32, same: F) -> bool
    requires { F.IsAlwaysCallable same }
    ensures { (none : T) (p : T → ℕ → Bool) → ((x : T) (y : ℕ) (r : Bool) → F.post same x y r → r ≡ p x y)
        → result ≡ (leb (length w.now) (length l.now) && every (length l.now) (λ k. p (get_or l.now k none) (get_or w.now k rest))) }
{
    if w.len() > l.len() {
        return false;
    }
    for (k, x) in l.iter().enumerate() {
        if !same(*x, at(w, k, rest)) {
            return false;
        }
    }
    true
}

// This and the next: a line each over the one comparison.
pub fn holds(l: &[u32], w: &[u32], rest: u32) -> bool
    ensures { result ≡ holds_of l.now w.now rest }
{
    holds_same(l, w, rest, |x, y| x == y)
}

// As bits: the bits of every NaN count as 0x7fc0_0000.
pub fn hold_numbers(l: &[f32], w: &[u32], rest: u32) -> bool
    ensures { result ≡ hold_numbers_of l.now w.now rest }
{
    holds_same(l, w, rest, |x, y| bits_of(x) == bits_of(float_of(y)))
}

// ---- tallies

// One more at entry i, held at the most a u32 can say. Past the end nothing is counted.
pub fn bump(l: &mut [u32], i: u32)
    ensures { l.new ≡ bumped l.old i }
{
    let n = at(l, i as usize, 0).saturating_add(1);
    put(l, i as usize, n);
}

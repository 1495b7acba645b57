// Words, values and lists of values from an input of any length.
ghost use Rattle.std.specs.Prelude.{◌≡◌, ◌+◌, ◌-◌, ◌*◌, ◌%◌, ◌^◌, ◌<◌, ◌≤◌, [], ◌∷◌, ◌++◌, length, drop, IfSome};
ghost use lib.Ieee.{of_bits, binary64};
ghost use Rattle.sample.specs.Digits.{digit_of};

use crate::floats;
use std::io::Read;

// A run of bytes without spaces and line ends, read in two ways: as a name, its last eight bytes, and as a
// number, its last sixteen digits in base 16. One of no bytes stands for a word that is missing.
#[derive(Clone, Copy, Default)]
pub struct Word {
    // The name, behind as many zeros as it is short of eight bytes.
    last: [u8; 8],
    len: usize,
    number: u64,
}

// The value of a hexadecimal digit, and 0 of any other byte.
fn digit(byte: u8) -> u64
    ensures value { result ≡ digit_of byte }
    ensures small { result < 16 }
{
    match byte {
        b'0'..=b'9' => u64::from(byte - b'0'),
        b'a'..=b'f' => u64::from(byte - b'a') + 10,
        _ => 0,
    }
}

impl Word {
    // One byte more.
    fn push(&mut self, byte: u8)
        ensures last { self.new.last ≡ drop 1 self.old.last ++ byte ∷ [] }
        ensures len { (self.old.len < 2 ^ 63) → self.new.len ≡ self.old.len + 1 }
        ensures number { self.new.number ≡ self.old.number % 2 ^ 60 * 16 + digit_of byte }
        ensures some { 0 < self.new.len }
    {
        let [_, a, b, c, d, e, f, g] = self.last;
        self.last = [a, b, c, d, e, f, g, byte];
        self.len = self.len.saturating_add(1);
        self.number = self.number % 0x1000_0000_0000_0000 * 16 + digit(byte);
    }

    // The last eight bytes, or all where there are fewer.
    pub fn name(&self) -> &[u8]
        ensures { result.now ≡ drop (8 - self.now.len) self.now.last }
    {
        &self.last[8usize.saturating_sub(self.len)..]
    }
}

impl From<Word> for u64 {
    ghost from_gives = { λ word n. n ≡ word.number };

    fn from(word: Word) -> u64 {
        word.number
    }
}

impl From<Word> for u32 {
    ghost from_gives = { λ word n. n ≡ word.number % 2 ^ 32 };

    fn from(word: Word) -> u32 {
        (word.number % 0x1_0000_0000) as u32
    }
}

impl From<Word> for u8 {
    ghost from_gives = { λ word n. n ≡ word.number % 2 ^ 8 };

    fn from(word: Word) -> u8 {
        (word.number % 0x100) as u8
    }
}

impl From<Word> for f64 {
    ghost from_gives = { λ word x.
        word.number % 2 ^ 63 ≤ 0x7ff0_0000_0000_0000 → x ≡ of_bits binary64 word.number };

    fn from(word: Word) -> f64 {
        floats::float(word.number)
    }
}

// What is still to be read of an input: what was read last holds the bytes from `at` up to `end`. (std's `Bytes` takes
// twice as long: it asks the buffer for each byte by a call.)
#[derive(Clone, Copy, Drop)]
pub struct Reader<R> {
    input: R,
    bytes: [u8; 4096],
    at: usize,
    end: usize,
}

impl<R: Read + Drop> Reader<R> {
    pub fn new(input: R) -> Self {
        Reader {
            input,
            bytes: [0; 4096],
            at: 0,
            end: 0,
        }
    }

    // The next byte, unless the input has ended. A read that fails counts as the end.
    fn byte(&mut self) -> Option<u8> {
        if self.end <= self.at {
            self.end = self.input.read(&mut self.bytes).unwrap_or(0);
            self.at = 0;
        }
        if self.at < self.end && self.at < self.bytes.len() {
            let byte = self.bytes[self.at];
            self.at += 1;
            return Some(byte);
        }
        None
    }

    // The next word, unless the input has ended. Nothing says that the input ends: the loop counts to a number that no
    // input reaches.
    pub fn word(&mut self) -> Option<Word>
        ensures { IfSome result (λ word. 0 < word.len) }
    {
        let mut word: Option<Word> = None;
        for _ in 0..u64::MAX {
            match self.byte() {
                Some(b) if b > b' ' => word.get_or_insert_default().push(b),
                Some(_) if word.is_none() => {}
                _ => break,
            }
        }
        word
    }

    // The value of the next word, and of one that is missing that of no bytes.
    pub fn value<T: From<Word>>(&mut self) -> T {
        T::from(self.word().unwrap_or_default())
    }

    // A list: its length, then its values, as many as there are places.
    pub fn list<'a, T: From<Word> + Copy>(&mut self, places: &'a mut [T]) -> &'a [T]
        ensures { length result.now ≤ length places.old }
    {
        let n = self.value::<u64>().min(places.len() as u64) as usize;
        let list = &mut places[..n];
        for place in list.iter_mut() {
            *place = self.value();
        }
        list
    }
}

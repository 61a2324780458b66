// Text in fixed memory: bytes, words, decimal numbers and blood figures, put one after the other into a line, or into lent bytes at a place. Not by
// `write!`: to a line that implements `fmt::Write` it states its bytes where it succeeds, and std's trait has no clause to say that it does. These
// cannot fail.
#![tactic(auto)]

ghost use Rattle.std.specs.Prelude.{◌≡◌, ℕ, ◌+◌, ◌≤◌, ◌<◌, List, [], ◌∷◌, ◌++◌, length, take, drop};
ghost use Rattle.text.specs.Decimal.{digit, decimal};
ghost use Rattle.text.specs.Figure.{tenths, figure};
ghost use Rattle.text.specs.Internal.{Put};

use std::marker::Model;

// A line of at most N bytes.
#[derive(Debug, Default, Drop)]
pub struct Line<const N: usize> {
    place: [u8; N],
    put: usize, // bytes of the line, at the front of its place
}

// Clauses see its bytes.
impl<const N: usize> Model for Line<N> {
    ghost Value = { List ℕ };

    ghost view = { λ line. take line.put line.place };

    ghost invariant = { λ line. line.put ≤ N };
}

impl<const N: usize> Line<N> {
    // A line of no bytes.
    pub fn new() -> Self
        ensures { result ≡ [] }
    {
        Self::default()
    }

    pub fn bytes(&self) -> &[u8]
        ensures { result.now ≡ self.now }
    {
        &self.place[..self.put]
    }

    pub fn clear(&mut self)
        ensures { self.new ≡ [] }
    {
        self.put = 0;
    }

    pub fn put_byte(&mut self, byte: u8)
        requires { length self.old < N }
        ensures { self.new ≡ self.old ++ byte ∷ [] }
    {
        self.place[self.put] = byte;
        self.put += 1;
    }

    // A byte at a time: `copy_from_slice` would take a slice of the whole place first and count `put` apart, and is no plainer.
    pub fn put_text(&mut self, text: &[u8])
        requires { length self.old + length text.now ≤ N }
        ensures { self.new ≡ self.old ++ text.now }
    {
        for byte in text {
            self.put_byte(*byte);
        }
    }

    pub fn put_digit(&mut self, n: u64)
        requires { (n < 10) × (length self.old < N) }
        ensures { self.new ≡ self.old ++ digit n ∷ [] }
    {
        self.put_byte(b'0' + n as u8);
    }

    // The digits of n / 10, and then the last one. It calls itself as the definition does: a loop would give the last digit first.
    pub fn put_decimal(&mut self, n: u64)
        requires { (n < 10_000_000_000) × (length self.old + 10 ≤ N) }
        ensures bytes { self.new ≡ self.old ++ decimal n }
        ensures most { length self.new ≤ length self.old + 10 }
    {
        if n < 10 {
            self.put_digit(n);
            return;
        }
        self.put_decimal(n / 10);
        self.put_digit(n % 10);
    }

    // A blood figure in ug/dL: the whole part, a point and one decimal.
    #[tactic(auto, using(std::proofs::Common::append_assoc), unfolding(crate::specs::Figure::figure))]
    pub fn put_figure(&mut self, blood: u32)
        requires { length self.old + 12 ≤ N }
        ensures bytes { self.new ≡ self.old ++ figure blood }
        ensures most { length self.new ≤ length self.old + 12 }
    {
        let rounded = tenths_of(blood);
        self.put_decimal(rounded / 10);
        self.put_byte(b'.');
        self.put_digit(rounded % 10);
    }

    // Puts the line into lent bytes at a place, keeps every other byte, and answers the place past it.
    pub fn store(&self, target: &mut [u8], place: usize) -> usize
        requires { place + length self.now ≤ length target.old }
        ensures { Put target.old place self.now (length self.now) target.new result }
    {
        put_text(target, place, self.bytes())
    }

    // Puts the line at the start of as many lent bytes as it may have, keeps those past it, and answers its length.
    pub fn store_first(&self, target: &mut [u8; N]) -> usize
        ensures value { result ≡ length self.now }
        ensures target_after { target.new ≡ self.now ++ drop (length self.now) target.old }
    {
        let _room = self.put; // so that the line's bound is known
        self.store(target, 0)
    }
}

// A blood figure, thousandths of ug/dL, in tenths of ug/dL, rounded half up.
fn tenths_of(blood: u32) -> u64
    ensures { result ≡ tenths blood }
{
    (u64::from(blood) + 50) / 100
}

// What follows puts into lent bytes at a place, keeps every other byte, and answers the place past what it put.

#[tactic(auto, using(crate::proofs::Puts::put_one))]
pub fn put_byte(target: &mut [u8], place: usize, byte: u8) -> usize
    requires { place < length target.old }
    ensures { Put target.old place (byte ∷ []) 1 target.new result }
{
    target[place] = byte;
    place + 1
}

// By number: the box has no `memmove`, which `copy_from_slice` would call for so many.
pub fn put_text(target: &mut [u8], place: usize, text: &[u8]) -> usize
    requires { place + length text.now ≤ length target.old }
    ensures { Put target.old place text.now (length text.now) target.new result }
{
    for (at, byte) in text.iter().enumerate() {
        target[place + at] = *byte;
    }
    place + text.len()
}

pub fn put_digit(target: &mut [u8], place: usize, n: u64) -> usize
    requires { (n < 10) × (place < length target.old) }
    ensures { Put target.old place (digit n ∷ []) 1 target.new result }
{
    put_byte(target, place, b'0' + n as u8)
}

// The digits of n.
pub fn put_decimal(target: &mut [u8], place: usize, n: u64) -> usize
    requires { (n < 10_000_000_000) × (place + 10 ≤ length target.old) }
    ensures { Put target.old place (decimal n) 10 target.new result }
{
    let mut line: Line<10> = Line::new();
    line.put_decimal(n);
    line.store(target, place)
}

// A blood figure in ug/dL.
pub fn put_figure(target: &mut [u8], place: usize, blood: u32) -> usize
    requires { place + 12 ≤ length target.old }
    ensures { Put target.old place (figure blood) 12 target.new result }
{
    let mut line: Line<12> = Line::new();
    line.put_figure(blood);
    line.store(target, place)
}

// An amount as text, at the right of a lent field.
ghost use Rattle.std.specs.Prelude.{◌≡◌, [], ◌∷◌, ◌++◌, ◌+◌, ◌≤◌, ◌<◌, min, length};
ghost use Rattle.decimal.specs.Text.{whole_of, numeral_of, text_of, IsShown};

use crate::units::Amount;
use std::marker::Model;

// The longest text: a sign, 20 digits and a point.
const MOST: usize = 22;

// A text in the making, from its last byte to its first.
#[derive(Drop)]
struct Text {
    bytes: [u8; MOST],
    at: usize,
}

impl Model for Text {
    ghost use Rattle.std.specs.Prelude.{List, ℕ, drop, ◌≤◌};
    ghost use Rattle.decimal.specs.declared.text.TheConstants.{MOST};

    ghost Value = { List ℕ };

    ghost view = { λ t. drop t.at t.bytes };

    ghost invariant = { λ t. t.at ≤ MOST };
}

impl Text {
    fn new() -> Text
        ensures { result ≡ [] }
    {
        Text {
            bytes: [0; MOST],
            at: MOST,
        }
    }

    fn as_bytes(&self) -> &[u8]
        ensures { result.now ≡ self.now }
    {
        &self.bytes[self.at..]
    }

    fn put(&mut self, b: u8)
        requires { length self.old < MOST }
        ensures { self.new ≡ b ∷ self.old }
    {
        self.at -= 1;
        self.bytes[self.at] = b;
    }

    fn word(&mut self, w: &[u8])
        requires { length w.now + length self.old ≤ MOST }
        ensures { self.new ≡ w.now ++ self.old }
    {
        let from = self.at - w.len();
        self.bytes[from..self.at].copy_from_slice(w);
        self.at = from;
    }

    // n without leading zeros.
    fn whole(&mut self, n: u64)
        requires { length (whole_of n) + length self.old ≤ MOST }
        ensures { self.new ≡ whole_of n ++ self.old }
    {
        self.at = itoa::write_digits(n, &mut self.bytes, self.at);
    }

    // n with the point in front of its last k digits.
    fn numeral(&mut self, n: u64, k: usize)
        requires { length (numeral_of k n) + length self.old ≤ MOST }
        ensures { self.new ≡ numeral_of k n ++ self.old }
    {
        if k == 0 {
            return self.whole(n);
        }
        let mut rest = n;
        for _ in 0..k {
            self.put(b'0' + (rest % 10) as u8);
            rest /= 10;
        }
        self.put(b'.');
        self.whole(rest);
    }

    fn of(amount: Amount, k: usize) -> Text
        requires { k ≤ 9 }
        ensures { result ≡ text_of k amount }
    {
        let mut text = Text::new();
        match amount {
            Amount::Count { negative, n } => {
                text.numeral(n, k);
                if negative {
                    text.put(b'-');
                }
            }
            Amount::Large => text.word(b"too large"),
            Amount::NoNumber => text.word(b"no number"),
        }
        text
    }
}

// The amount with the point in front of its last k digits (a k above 9 counts as 9), at the right of the field, blanks in front of it. Answers where the text begins.
// A field that is too short is filled with '#', and the answer is 0: what is to be read begins there too, so it is no refusal.
pub fn show(amount: Amount, k: usize, field: &mut [u8]) -> usize
    ensures { IsShown (min k 9) amount field.old result field.new }
{
    let text = Text::of(amount, k.min(9));
    let bytes = text.as_bytes();
    let Some(at) = field.len().checked_sub(bytes.len()) else {
        field.fill(b'#');
        return 0;
    };
    let (blanks, rest) = field.split_at_mut(at);
    blanks.fill(b' ');
    rest.copy_from_slice(bytes);
    at
}

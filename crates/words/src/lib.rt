// What a refusal number means, as words in a lent array (01-scope 2.1): for C.
#![tactic(auto)]

ghost use Rattle.std.specs.Prelude.{◌≡◌, get_or};
ghost use Rattle.refusal.specs.Meanings.{meanings, lookup};
ghost use Rattle.words.specs.Words.{IsMeaning};

use refusal::{ACCEPTED, Refusal};

fn text(number: u32) -> &'static str
    ensures { result.now ≡ lookup meanings number }
{
    if number == ACCEPTED {
        return "accepted";
    }
    match Refusal::try_from(number) {
        Ok(refusal) => refusal.meaning(),
        Err(_) => "no number that this version gives",
    }
}

// The text's byte i, a zero behind its end.
fn byte(text: &[u8], i: usize) -> u8
    ensures { result ≡ get_or text.now i 0 }
{
    text.get(i).map_or(0, |&b| b)
}

// Fills words, whatever was in it, and answers how many of its bytes are words; the others are zero. Byte by byte: to copy as many as a length says is a call of memmove, which the archive does not ask
// of a C library.
pub fn meaning(number: u32, words: &mut [u8; 64]) -> usize
    ensures { IsMeaning number result words.new }
{
    let text = text(number).as_bytes();
    for i in 0..words.len() {
        words[i] = byte(text, i);
    }
    text.len()
}

// What the arguments ask for.
ghost use Rattle.std.specs.Prelude.{◌≡◌};
ghost use Rattle.code.specs.Lists.{same};
ghost use Rattle.code.specs.Lists.{ascii};

use code::Kind;
use std::env::{Env, FillError};

// The most bytes of an argument that is looked at, more than any known one has.
const WORD_MOST: usize = 8;

// The kind of the dump that is to be listed, none where the arguments are unknown. Nothing in the bytes tells the two kinds of dump apart: without an argument
// the dump is an old one.
pub fn read_kind(rt: &impl Env) -> Option<Kind> {
    let mut word = [0u8; WORD_MOST];
    match rt.arg(1, &mut word) {
        Err(FillError::NotPresent) => Some(Kind::Old),
        Ok(count) if !is_given(rt, 2) && is_new(&word[..count]) => Some(Kind::New),
        _ => None,
    }
}

// Whether there is an argument of a number.
fn is_given(rt: &impl Env, number: usize) -> bool {
    let mut word = [0u8; WORD_MOST];
    !matches!(rt.arg(number, &mut word), Err(FillError::NotPresent))
}

fn is_new(word: &[u8]) -> bool
    ensures { result ≡ same word.now (ascii "--new") }
{
    word == b"--new".as_slice()
}

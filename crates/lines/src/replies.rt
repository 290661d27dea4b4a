// The numbers of an answer: 0 and its values, or a refusal and what it carries.
ghost use Rattle.std.specs.Prelude.{◌≤◌};

use crate::Numbers;
use code::Refusal;
use pairing::{PairRead, PairWritten, Side};
use reading::Reading;
use resuming::Resumed;
use std::fmt;
use writing::Written;

// So many numbers, with 0 behind them, each of which is printed behind a space.
#[derive(Clone, Copy)]
pub struct Reply {
    count: usize,
    numbers: [u64; 4],
    ghost few: { count ≤ 4 },
}

impl fmt::Display for Reply {
    fn fmt<W: fmt::Write>(&self, f: &mut fmt::Formatter<W>) -> fmt::Result {
        Numbers(&self.numbers[..self.count]).fmt(f)
    }
}

impl Reply {
    pub fn of<const N: usize>(numbers: [u64; N]) -> Reply
        requires { N ≤ 4 }
    {
        let mut all = [0u64; 4];
        all[..N].copy_from_slice(&numbers);
        Reply {
            count: N,
            numbers: all,
        }
    }
}

// A refusal and what it carries.
impl From<Refusal> for Reply {
    fn from(refusal: Refusal) -> Reply {
        let number = refusal.number();
        match refusal {
            Refusal::Malformed { offset } => Reply::of([number, offset as u64]),
            Refusal::Miscounted {
                generation,
                unerased,
            } => Reply::of([number, generation, unerased]),
            Refusal::Beyond { generation } => Reply::of([number, generation]),
            _ => Reply::of([number]),
        }
    }
}

impl From<Reading> for Reply {
    fn from(reading: Reading) -> Reply {
        Reply::of([0, reading.generation, reading.number, reading.left])
    }
}

impl From<Written> for Reply {
    fn from(written: Written) -> Reply {
        Reply::of([0, written.generation, written.turned])
    }
}

// Yes and its number, or a 0 alone for no.
impl From<Option<u64>> for Reply {
    fn from(judged: Option<u64>) -> Reply {
        match judged {
            Some(number) => Reply::of([0, 1, number]),
            None => Reply::of([0, 0]),
        }
    }
}

// Generation, turned wits and how many groups are listed.
impl From<Resumed> for Reply {
    fn from(resumed: Resumed) -> Reply {
        Reply::of([0, resumed.generation, resumed.turned, resumed.count])
    }
}

impl From<PairRead> for Reply {
    fn from(read: PairRead) -> Reply {
        Reply::of([0, read.number, read.left])
    }
}

// The first field is 0, the second 1.
impl From<PairWritten> for Reply {
    fn from(written: PairWritten) -> Reply {
        let field = match written.side {
            Side::First => 0,
            Side::Second => 1,
        };
        Reply::of([0, field, written.generation, written.turned])
    }
}

// How many bytes are stored.
impl From<usize> for Reply {
    fn from(length: usize) -> Reply {
        Reply::of([0, length as u64])
    }
}

// The reply of a call by its answer, or by its refusal.
pub fn reply_of<A: Into<Reply> + Drop>(answer: Result<A, Refusal>) -> Reply {
    match answer {
        Ok(values) => values.into(),
        Err(refusal) => Reply::from(refusal),
    }
}

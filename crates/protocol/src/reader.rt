// The bytes of a stream, taken one part after the other. Each number is tested as soon as it is read, so that a call that is both too long and cut off later is
// too long.
ghost use Rattle.std.specs.Prelude.{◌≡◌, ◌+◌, ◌≤◌, length, IfOk};
ghost use Rattle.protocol.specs.Bounds.{bytes_most, output_most, listed_most};

use crate::calls::{BYTES_MOST, Broken, LISTED_MOST, NewRecord, OUTPUT_MOST, OldRecord};
use code::{Pair, Shape};

// The most ranges of a shape that are read; more than 16 are refused by every call.
const RANGES_MOST: usize = 64;

// What is not yet taken of a call and of what stands behind it.
#[derive(Clone, Copy)]
pub struct Reader<'a> {
    rest: &'a [u8],
    // The most bytes that a count may still name: two of them share the limit.
    most: usize,
    ghost limited: { most ≤ bytes_most },
}

impl<'a> Reader<'a> {
    pub fn new(bytes: &'a [u8]) -> Reader<'a> {
        Reader {
            rest: bytes,
            most: BYTES_MOST,
        }
    }

    // How many bytes are left.
    pub fn left(&self) -> usize {
        self.rest.len()
    }

    // The byte that a call begins with.
    pub fn operation(&mut self) -> Result<u8, Broken> {
        let (operation, behind) = self.rest.split_first().ok_or(Broken::Ended)?;
        self.rest = behind;
        Ok(*operation)
    }

    pub fn number(&mut self) -> Result<u64, Broken> {
        let (number, behind) = self.rest.split_first_chunk::<8>().ok_or(Broken::CutOff)?;
        self.rest = behind;
        Ok(u64::from_le_bytes(*number))
    }

    // A number that has a limit.
    fn count(&mut self, most: usize) -> Result<usize, Broken>
        ensures { IfOk result (λ count. count ≤ most) }
    {
        let count = self.number()?;
        if (most as u64) < count {
            return Err(Broken::TooLong);
        }
        Ok(count as usize)
    }

    fn part(&mut self, count: usize) -> Result<&'a [u8], Broken>
        ensures { IfOk result (λ part. length part.now ≡ count) }
    {
        let (part, behind) = self.rest.split_at_checked(count).ok_or(Broken::CutOff)?;
        self.rest = behind;
        Ok(part)
    }

    // A count and so many bytes.
    pub fn bytes(&mut self) -> Result<&'a [u8], Broken>
        ensures { IfOk result (λ part. length part.now + self.new.most ≡ self.old.most) }
    {
        let most = self.most;
        let count = self.count(most)?;
        let part = self.part(count)?;
        self.most = most - count;
        Ok(part)
    }

    // The length of an output.
    pub fn output(&mut self) -> Result<usize, Broken>
        ensures { IfOk result (λ length. length ≤ output_most) }
    {
        self.count(OUTPUT_MOST)
    }

    // A count and so many numbers, of which those are kept that there are places for.
    fn numbers(&mut self, most: usize, places: &mut [u64]) -> Result<usize, Broken>
        ensures { IfOk result (λ count. count ≤ most) }
    {
        let count = self.count(most)?;
        for i in 0..count {
            let number = self.number()?;
            if let Some(place) = places.get_mut(i) {
                *place = number;
            }
        }
        Ok(count)
    }

    // A list of numbers, which is put into the places that are lent, by their count.
    pub fn list(&mut self, lent: &mut [u64; LISTED_MOST]) -> Result<usize, Broken>
        ensures { IfOk result (λ count. count ≤ listed_most) }
    {
        self.numbers(LISTED_MOST, lent)
    }

    pub fn shape(&mut self) -> Result<Shape, Broken> {
        let form = self.number()?;
        let m = self.number()?;
        let t = self.number()?;
        let mut v = [0u64; 16];
        let count = self.numbers(RANGES_MOST, &mut v)? as u64;
        Ok(Shape {
            form,
            m,
            t,
            count,
            v,
        })
    }

    pub fn pair(&mut self) -> Result<Pair, Broken> {
        Ok(Pair {
            form: self.number()?,
            m: self.number()?,
            t1: self.number()?,
            v1: self.number()?,
            t2: self.number()?,
            v2: self.number()?,
        })
    }

    pub fn old_record(&mut self) -> Result<OldRecord, Broken> {
        Ok(OldRecord {
            serial: self.number()?,
            m: self.number()?,
            t: self.number()?,
            v: self.number()?,
        })
    }

    pub fn new_record(&mut self) -> Result<NewRecord, Broken> {
        Ok(NewRecord {
            serial: self.number()?,
            layout: self.number()?,
            shape: self.shape()?,
        })
    }
}

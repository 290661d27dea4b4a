// Document 02, §7: a layout of a new dump's list with all its ranges.
ghost use Rattle.std.specs.Prelude.{◌≡◌, List, ℕ};
ghost use Rattle.code.specs.Calls.{filled};
ghost use Rattle.code.specs.NewDump.{listed_as, listed_reply, listed_fields};
ghost use Rattle.records.specs.Source.{layouts_at};
ghost use Rattle.dump.specs.Listed.{listed_of, listed_numbers_of, Listing};

use crate::LAYOUTS_MOST;
use code::{Kind, Refusal, Shape};

// A listed layout in numbers, as C is given it (`gorvlime_listed_shape`): refused, all its numbers are 0.
#[repr(C)]
#[derive(Clone, Copy)]
pub struct ListedShape {
    pub refusal: u64,
    pub shape: Shape,
}

// The same in numbers.
pub fn flat(listed: Result<Shape, Refusal>) -> ListedShape
    ensures { (reply : List ℕ) → Listing reply → listed_of listed ≡ filled listed_fields reply → listed_numbers_of result ≡ filled listed_fields reply }
{
    match listed {
        Ok(shape) => ListedShape { refusal: 0, shape },
        Err(refusal) => {
            let shape = Shape {
                form: 0,
                m: 0,
                t: 0,
                count: 0,
                v: [0u64; 16],
            };
            ListedShape {
                refusal: refusal.number(),
                shape,
            }
        }
    }
}

// The layout that has a number in a list that is opened.
fn listed_in(dump: &[u8], places: &[u16], number: u64) -> Result<Shape, Refusal>
    ensures { listed_of result ≡ filled listed_fields (listed_as (layouts_at dump.now places.now) number) }
{
    if places.len() as u64 <= number {
        return Err(Refusal::Bounds);
    }
    Ok(records::listed_shape(dump, places, number))
}

// The layout that has a number in the list of a new dump.
pub fn listed_shape(dump: &[u8], number: u64) -> Result<Shape, Refusal>
    ensures { listed_of result ≡ filled listed_fields (listed_reply dump.now number) }
{
    let mut places = [0u16; LAYOUTS_MOST];
    let opened = crate::open(dump, Kind::New, &mut places)?;
    listed_in(dump, &places[..opened.layouts], number)
}

// Document 02, §3, "Layouts said once": the layout list of a new dump, kept by the places of its layouts.
ghost use Rattle.std.specs.Prelude.{◌≡◌, ◌≤◌, length};
ghost use Rattle.code.specs.LayoutList.{listed_shape, read_layouts, layout_list};
ghost use Rattle.records.specs.Source.{layout_at};
ghost use Rattle.code.specs.Shape.{shaped};
ghost use Rattle.records.specs.List.{RangesSaid, RangesRead, LayoutRead, ListRead};

use code::Shape;
use shapes::Outline;

// The most layouts of a list.
pub const LAYOUTS_MOST: usize = 64;

// Where the records begin, behind so many layouts.
#[derive(Clone, Copy)]
pub struct LayoutList {
    pub start: usize,
    pub count: usize,
}

// The layout at a place but for its ranges, and the place behind it.
#[derive(Clone, Copy)]
struct LayoutThere {
    outline: Outline,
    end: usize,
}

// How many ranges follow form, m and t, none where a dump cannot say it: 02, §7, "t outside 2 to 16 here is a broken layout list".
fn ranges_said(numbers: &[u64; 3]) -> Option<usize>
    ensures { RangesSaid numbers.now result }
{
    if numbers[0] != 2 {
        return Some(1);
    }
    let t = numbers[2];
    if t < 2 || 16 < t {
        return None;
    }
    Some(t as usize)
}

// Reads so many ranges from a place on to the front of v.
fn read_ranges(dump: &[u8], at: usize, v: &mut [u64], count: usize) -> Option<usize>
    requires { count ≤ length v.old }
    ensures { RangesRead dump.now at count v.old v.new result }
{
    numerals::read_numbers(dump, at, &mut v[..count])
}

// Reads the layout at a place; its ranges go to the front of v.
fn read_layout(dump: &[u8], at: usize, v: &mut [u64]) -> Option<LayoutThere>
    requires { length v.old ≡ 16 }
    ensures { LayoutRead dump.now at v.old v.new result }
{
    let mut numbers = [0u64; 3];
    let behind = numerals::read_numbers(dump, at, &mut numbers)?;
    let count = ranges_said(&numbers)?;
    let end = read_ranges(dump, behind, v, count)?;
    let outline = Outline {
        form: numbers[0],
        m: numbers[1],
        t: numbers[2],
        count: count as u64,
    };
    Some(LayoutThere { outline, end })
}

// The shape of the layout that stands at a place, of zeros where none does.
pub fn shape_at(dump: &[u8], place: usize) -> Shape
    ensures { result ≡ listed_shape (layout_at dump.now place) }
{
    let mut v = [0u64; 16];
    let Some(there) = read_layout(dump, place, &mut v) else {
        return form_zero(0, 0, 0);
    };
    let Outline { form, m, t, count } = there.outline;
    Shape {
        form,
        m,
        t,
        count,
        v,
    }
}

// The shape of form 0 that m, t and a range make; of zeros it stands for a layout which is none.
pub fn form_zero(m: u64, t: u64, range: u64) -> Shape
    ensures { result ≡ shaped m t range }
{
    let mut v = [0u64; 16];
    v[0] = range;
    Shape {
        form: 0,
        m,
        t,
        count: 1,
        v,
    }
}

// Reads so many layouts from a place on and keeps their places.
fn read_places(
    dump: &[u8],
    at: usize,
    count: usize,
    places: &mut [u16; LAYOUTS_MOST],
) -> Option<LayoutList>
    requires { (length dump.now ≤ 65536) × (count ≤ 64) × (length places.old ≡ 64) }
    ensures { ListRead dump.now (read_layouts count dump.now at) places.new result }
{
    let mut start = at;
    let mut v = [0u64; 16];
    for i in 0..count {
        let there = read_layout(dump, start, &mut v)?;
        places[i] = start as u16;
        start = there.end;
    }
    Some(LayoutList { start, count })
}

// Reads the layout list at the front of a dump.
pub fn read_list(dump: &[u8], places: &mut [u16; LAYOUTS_MOST]) -> Option<LayoutList>
    requires { (length dump.now ≤ 65536) × (length places.old ≡ 64) }
    ensures { ListRead dump.now (layout_list dump.now) places.new result }
{
    let mut numbers = [0u64; 1];
    let end = numerals::read_numbers(dump, 0, &mut numbers)?;
    let count = numbers[0];
    if (LAYOUTS_MOST as u64) < count {
        return None;
    }
    read_places(dump, end, count as usize, places)
}

// Documents 01 and 02, dumps of both kinds: opening one, and one step of the walk.
#![tactic(auto)]

pub mod kept;
pub mod listed;

ghost use Rattle.std.specs.Prelude.{◌≡◌, ◌≤◌, length, get_or, Ok, Some};
ghost use Rattle.code.specs.declared.Kind.TheVariants.{New};
ghost use Rattle.shapes.specs.Outlines.{outlined};
ghost use Rattle.code.specs.Dump.{Source, open_reply, step, taken, step_values, step_reply};
ghost use Rattle.layout.specs.Plan.{Planned};
ghost use Rattle.records.specs.Source.{source_of};
ghost use Rattle.records.specs.Head.{said_shape, head_record};
ghost use Rattle.dump.specs.declared.Halt.TheVariants.{Malformed};
ghost use Rattle.dump.specs.Kept.{Keeps};
ghost use Rattle.dump.specs.Answers.{refusal_of, halt_carries, opened_reply, located_of, step_of, Opens, Walkable};

use code::{Kind, Refusal};
use kept::Kept;
use reading::Reading;
use records::{Head, Malformed};

// The most bytes of a dump.
pub const DUMP_MOST: usize = 65536;

// The most layouts of a new dump.
const LAYOUTS_MOST: usize = records::list::LAYOUTS_MOST;

// Why a walk stops before the end: a malformed record, whose first byte stands at the offset, or more bytes than a dump may have.
#[derive(Clone, Copy, Debug, PartialEq, Eq)]
pub enum Halt {
    Malformed { offset: usize },
    Oversize,
}

impl Halt {
    // The offset that it carries, 0 where it carries none.
    pub fn offset(self) -> usize
        ensures { result ≡ get_or (halt_carries self) 0 0 }
    {
        match self {
            Halt::Malformed { offset } => offset,
            Halt::Oversize => 0,
        }
    }
}

impl From<Malformed> for Halt {
    ghost from_gives = { λ e halt. halt ≡ Malformed e.offset };

    fn from(e: Malformed) -> Halt {
        Halt::Malformed { offset: e.offset }
    }
}

impl From<Halt> for Refusal {
    ghost from_gives = { λ halt k. k ≡ refusal_of halt };

    fn from(halt: Halt) -> Refusal {
        match halt {
            Halt::Malformed { offset } => Refusal::Malformed { offset },
            Halt::Oversize => Refusal::TooLong,
        }
    }
}

// A dump at its front: where its records begin, behind so many layouts.
#[derive(Clone, Copy)]
pub struct Opened {
    pub start: usize,
    pub layouts: usize,
}

// Opens a dump and keeps the places of its layouts.
pub fn open(dump: &[u8], kind: Kind, places: &mut [u16; LAYOUTS_MOST]) -> Result<Opened, Halt>
    requires { length places.old ≡ 64 }
    ensures { Opens kind dump.now places.new result }
{
    if DUMP_MOST < dump.len() {
        return Err(Halt::Oversize);
    }
    match kind {
        Kind::Old => Ok(Opened {
            start: 0,
            layouts: 0,
        }),
        Kind::New => open_list(dump, places),
    }
}

// Opens a new dump, behind its layout list.
fn open_list(dump: &[u8], places: &mut [u16; LAYOUTS_MOST]) -> Result<Opened, Halt>
    requires { (length dump.now ≤ 65536) × (length places.old ≡ 64) }
    ensures { Opens New dump.now places.new result }
{
    let Some(list) = records::list::read_list(dump, places) else {
        return Err(Halt::Malformed { offset: 0 });
    };
    Ok(Opened {
        start: list.start,
        layouts: list.count,
    })
}

// Opens a new dump for its reader: the layouts that it lists, and the place of its first record.
pub fn open_new(dump: &[u8]) -> Result<Opened, Halt>
    ensures { opened_reply result ≡ open_reply New dump.now }
{
    let mut places = [0u16; LAYOUTS_MOST];
    open(dump, Kind::New, &mut places)
}

// What a record's layout is like, its ranges up to the first, which is the only one but in form 2.
#[repr(C)]
#[derive(Clone, Copy)]
pub struct Brief {
    pub form: u64,
    pub m: u64,
    pub t: u64,
    pub v: u64,
}

// A record and what it reads as: its cells are the `count` bytes from `start` on, a part of the dump which `records::part` gives; the layout's number is 0 in
// an old dump.
#[derive(Clone, Copy)]
pub struct Record {
    pub serial: u64,
    pub layout: u64,
    pub brief: Brief,
    pub start: usize,
    pub count: usize,
    pub outcome: Result<Reading, Refusal>,
}

// One step of the walk, of either kind of dump: a record, whose outcome is a reading or a refusal; none at the end; or why the walk stops before it.
pub type Step = Result<Option<Record>, Halt>;

// What stands at a place: the head of a record, nothing at the end, or why the walk stops.
pub fn locate(dump: &[u8], kind: Kind, places: &[u16], at: usize) -> Result<Option<Head>, Halt>
    requires { Walkable kind dump.now places.now }
    ensures { located_of (source_of kind dump.now places.now) result ≡ step kind dump.now at }
{
    if dump.len() <= at {
        return Ok(None);
    }
    let head = records::read_head(dump, kind, places, at)?;
    Ok(Some(head))
}

// The record of a head whose layout is worked out.
fn planned_record(dump: &[u8], kept: &Kept, head: Head) -> Record
    requires { Planned kept.now.plan kept.now.v kept.now.h }
    ensures { (source : Source) → outlined kept.now.plan.outline kept.now.v ≡ said_shape source head.said
        → step_of (Ok (Some result)) ≡ step_values dump.now (taken (head_record source head)) }
{
    let outline = kept.plan.outline;
    let brief = Brief {
        form: outline.form,
        m: outline.m,
        t: outline.t,
        v: kept.v[0],
    };
    let outcome = reading::read_by(
        kept.plan,
        &kept.h,
        &kept.v,
        records::part(dump, head.start, head.count),
    );
    Record {
        serial: head.serial,
        layout: head.said.layout,
        brief,
        start: head.start,
        count: head.count,
        outcome,
    }
}

// The step at a place, by itself: a record, nothing at the end, or why the walk stops.
pub fn step_at(dump: &[u8], kind: Kind, at: usize) -> Step
    ensures { step_of result ≡ step_reply kind dump.now at }
{
    let mut places = [0u16; LAYOUTS_MOST];
    let opened = open(dump, kind, &mut places)?;
    step_in(dump, kind, &places[..opened.layouts], at)
}

// The step at a place of a dump that is opened.
fn step_in(dump: &[u8], kind: Kind, places: &[u16], at: usize) -> Step
    requires { Walkable kind dump.now places.now }
    ensures { step_of result ≡ step_reply kind dump.now at }
{
    let Some(head) = locate(dump, kind, places, at)? else {
        return Ok(None);
    };
    let mut kept = Kept::none();
    kept.work_out(dump, kind, places, head.said);
    Ok(Some(planned_record(dump, &kept, head)))
}

// The same, with what is kept of the steps before.
pub fn step_kept(dump: &[u8], kind: Kind, places: &[u16], at: usize, kept: &mut Kept) -> Step
    requires { Walkable kind dump.now places.now × Keeps (source_of kind dump.now places.now) kept.old }
    ensures step_value { step_of result ≡ step_reply kind dump.now at }
    ensures keeps { Keeps (source_of kind dump.now places.now) kept.new }
{
    let Some(head) = locate(dump, kind, places, at)? else {
        return Ok(None);
    };
    kept.renew(dump, kind, places, head.said);
    Ok(Some(planned_record(dump, kept, head)))
}

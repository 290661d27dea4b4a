// The layout that a walk keeps from record to record.
ghost use Rattle.std.specs.Prelude.{◌≡◌, ◌^◌, ◌<◌};
ghost use Rattle.code.specs.Dump.{Source, listed_many};
ghost use Rattle.records.specs.Source.{source_of};
ghost use Rattle.dump.specs.Kept.{none_said, Keeps};

use code::Kind;
use layout::{Plan, Ungranted};
use records::Said;
use shapes::Outline;

// The layout of the last record: what that said of it, and its plan, with its ranges and its counts.
#[derive(Clone, Copy)]
pub struct Kept {
    pub said: Said,
    pub plan: Plan,
    pub v: [u64; 16],
    pub h: [u64; 16],
}

// What is said before the first record: a number that no list has.
pub fn say_none() -> Said
    ensures { result ≡ none_said }
{
    Said {
        layout: 0xFFFF_FFFF_FFFF_FFFF,
        m: 0,
        t: 0,
        v: 0,
    }
}

impl Kept {
    // What is kept before it, with no ranges and no counts: that number, and the refusal of a shape of zeros.
    pub fn none() -> Kept
        ensures { (source : Source) → listed_many source < 2 ^ 64 → Keeps source result }
    {
        let outline = Outline {
            form: 0,
            m: 0,
            t: 0,
            count: 1,
        };
        let plan = Plan {
            outline,
            laid: Err(Ungranted::Bounds),
        };
        Kept {
            said: say_none(),
            plan,
            v: [0u64; 16],
            h: [0u64; 16],
        }
    }

    // The layout that a record says, worked out in place: a value that is returned would be copied.
    pub fn work_out(&mut self, dump: &[u8], kind: Kind, places: &[u16], said: Said)
        ensures { (self.new.said ≡ said) × Keeps (source_of kind dump.now places.now) self.new }
    {
        let shape = records::shape_said(dump, kind, places, said);
        let outline = shapes::outline_of(shape);
        let v = shape.v;
        let none = [0u64; 16];
        self.said = said;
        self.v = v;
        self.h = none;
        let laid = layout::lay_into(&mut self.h, outline, &self.v, 256);
        self.plan = Plan { outline, laid };
    }

    // The same, but what is kept already where the record before said that.
    pub fn renew(&mut self, dump: &[u8], kind: Kind, places: &[u16], said: Said)
        requires { Keeps (source_of kind dump.now places.now) self.old }
        ensures { (self.new.said ≡ said) × Keeps (source_of kind dump.now places.now) self.new }
    {
        if self.said != said {
            self.work_out(dump, kind, places, said);
        }
    }
}

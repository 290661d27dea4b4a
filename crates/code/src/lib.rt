// Documents 01 and 02 as definitions (specs/) and the theorems about them (proofs/). Of the program only what the definitions share with it stands here.
#![tactic(auto)]

ghost use Rattle.std.specs.Prelude.{◌≡◌, [], ◌∷◌};
ghost use Rattle.code.specs.Calls.{filled};
ghost use Rattle.code.specs.Refusals.{refusal_reply, number_of};

// What a caller gives of a field.
#[repr(C)]
#[derive(Clone, Copy)]
pub struct Shape {
    // 0 for drives in service, where blank cells read as the number 0; 1 for new ones, where they have no number; 2 for those with a range for
    // each generation, else as 1.
    pub form: u64,
    // Wits in a group.
    pub m: u64,
    // Generations.
    pub t: u64,
    // How many ranges are given: one in forms 0 and 1, and t in form 2.
    pub count: u64,
    // The ranges: a number is below that of the generation that takes it. What stands behind those given is not looked at.
    pub v: [u64; 16],
}

// What a caller gives of two fields that are read and written as one: they share the form and m, and may differ in t.
#[repr(C)]
#[derive(Clone, Copy)]
pub struct Pair {
    pub form: u64,
    pub m: u64,
    // Generations and range of the first field.
    pub t1: u64,
    pub v1: u64,
    // Those of the second, whose range is that of the first.
    pub t2: u64,
    pub v2: u64,
}

// What an array of labels or values has room for: the written places of a pattern whose number is in range, or the digits of the last generation.
pub const PATTERN_MOST: usize = 64;

// The two kinds of dump: the old one has m, t and v in every record, the new one lists its layouts once.
#[derive(Clone, Copy)]
pub enum Kind {
    Old,
    New,
}

// How the places of a generation hold a number: as a pattern whose written places, `fewest` or more, take one of so many values; or as digits.
#[derive(Clone, Copy)]
pub enum Dealing {
    Patterns { values: u64, fewest: u64 },
    Digits { base: u64 },
}

// A generation: the number of its places, that of the next generation or 0, how it deals, and its range.
#[derive(Clone, Copy)]
pub struct Generation {
    pub places: u64,
    pub next: u64,
    pub dealing: Dealing,
    pub range: u64,
}

// Why a call is refused, and what the refusal carries, by the names that the header for C has. Document 01, "Refusal numbers", and document 02;
// docs/RULES.md, 12, has them in order.
#[derive(Clone, Copy, Debug, PartialEq, Eq)]
pub enum Refusal {
    // Form, m, t, a range or g outside its bounds.
    Bounds,
    // No list fits in g groups.
    NoRoom,
    // Another count of bytes than the field has, or a left-over bit that is 1.
    Cells,
    // All generations are used.
    Spent,
    // A number not below the range.
    Number,
    // A malformed record, whose first byte stands at the offset, or a broken layout list at 0.
    Malformed { offset: usize },
    // More bytes than a dump may have.
    TooLong,
    // Lent output that is too short.
    Output,
    // A serial above 2^63 − 1.
    Serial,
    // Blank cells of a form in which they have no number.
    Blank,
    // A listed form that the old dump cannot hold.
    Form,
    // More layouts than a list may have.
    Layouts,
    // More numbers than one call writes.
    Numbers,
    // Another number of unerased groups than the generation has.
    Miscounted { generation: u64, unerased: u64 },
    // A number in the cells that is not below the range of its generation.
    Beyond { generation: u64 },
    // Cells that have a reading, or are blank, where a cut-off write is to be gone on with.
    Readable,
    // Two fields as one whose ranges differ.
    Unequal,
    // A line of a HEX text: its shape, its sum, its address, a missing end, its type.
    Line,
    Sum,
    Address,
    NoEnd,
    RecordType,
}

// A refusal in numbers: its own, and what it carries, 0 for what it lacks: 15 a generation and an unerased count, 16 a generation, 7 an offset.
#[derive(Clone, Copy)]
pub struct RefusalFields {
    pub number: u64,
    pub first: u64,
    pub second: u64,
}

impl Refusal {
    // Its number in the table.
    pub fn number(self) -> u64
        ensures { result ≡ number_of self }
    {
        match self {
            Refusal::Bounds => 1,
            Refusal::NoRoom => 2,
            Refusal::Cells => 3,
            Refusal::Spent => 5,
            Refusal::Number => 6,
            Refusal::Malformed { offset: _ } => 7,
            Refusal::TooLong => 8,
            Refusal::Output => 9,
            Refusal::Serial => 10,
            Refusal::Blank => 11,
            Refusal::Form => 12,
            Refusal::Layouts => 13,
            Refusal::Numbers => 14,
            Refusal::Miscounted { .. } => 15,
            Refusal::Beyond { generation: _ } => 16,
            Refusal::Readable => 17,
            Refusal::Unequal => 18,
            Refusal::Line => 20,
            Refusal::Sum => 21,
            Refusal::Address => 22,
            Refusal::NoEnd => 23,
            Refusal::RecordType => 24,
        }
    }
    // The numbers that an answer for C has of it.
    #[tactic(auto, unfolding(crate::specs::Calls::filled))]
    pub fn fields(self) -> RefusalFields
        ensures { (result.number ∷ result.first ∷ result.second ∷ []) ≡ filled 3 (refusal_reply self) }
    {
        let number = self.number();
        match self {
            Refusal::Malformed { offset } => RefusalFields {
                number,
                first: offset as u64,
                second: 0,
            },
            Refusal::Miscounted {
                generation,
                unerased,
            } => RefusalFields {
                number,
                first: generation,
                second: unerased,
            },
            Refusal::Beyond { generation } => RefusalFields {
                number,
                first: generation,
                second: 0,
            },
            _ => RefusalFields {
                number,
                first: 0,
                second: 0,
            },
        }
    }
}

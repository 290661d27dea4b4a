// What the calls on cells go by, once the layout is granted.
ghost use Rattle.shapes.specs.Outlines.{outlined};
ghost use Rattle.layout.specs.Plan.{Granted};

use shapes::Outline;

// A field whose layout is granted: its outline, its ranges and its counts.
#[derive(Clone, Copy)]
pub struct Field<'a> {
    pub outline: Outline,
    pub v: &'a [u64; 16],
    pub h: &'a [u64; 16],
    pub ghost granted: { Granted (outlined outline v.now) h.now },
}

// The kinds that are asked: document 01's cases P5 to P10, and each kind of component.
use std::fmt;

#[derive(Clone, Copy, Debug)]
pub enum Kind {
    Case,
    Constant,
    Sphere,
    Torus,
    Multiply,
    Add,
    Subtract,
    Divide,
    Lerp,
    VariableLerp,
    Remap,
    BooleanUnion,
    BooleanIntersection,
    BooleanDifference,
    Offset,
    Thickness,
}

// A kind by its name; `case` is document 01's, and no kind of component.
// Kept: it states no output, for `{:?}` of an enum states none, and a match would write each name again.
impl fmt::Display for Kind {
    fn fmt<W: fmt::Write>(&self, f: &mut fmt::Formatter<W>) -> fmt::Result {
        match self {
            Kind::Case => f.write_str("case"),
            kind => write!(f, "{kind:?}"),
        }
    }
}

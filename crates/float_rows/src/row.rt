// A row of the list: what is asked of which numbers and the recorded answer, each number its bits in 16 hexadecimal digits.
use float::{arithmetic, bits, extrema};

#[derive(Clone, Copy)]
enum Question {
    Root(f64),
    Sum(f64, f64),
    Difference(f64, f64),
    Product(f64, f64),
    Quotient(f64, f64),
    Min(f64, f64),
    Max(f64, f64),
}

#[derive(Clone, Copy)]
pub struct Row {
    question: Question,
    pub answer: u64,
}

fn float(word: &str) -> Option<f64> {
    recorded::number(word).map(bits::float_of)
}

// Kept: an Option here and below, and no FromStr, whose error would say no more than None, and be made by hand at each `?`; and a match on the names, since no other place reads or writes one.
impl Question {
    fn parse(name: &str, numbers: &str) -> Option<Question> {
        if name == "root" {
            return Some(Question::Root(float(numbers)?));
        }
        let (a, b) = numbers.split_once(' ')?;
        let a = float(a)?;
        let b = float(b)?;
        match name {
            "sum" => Some(Question::Sum(a, b)),
            "difference" => Some(Question::Difference(a, b)),
            "product" => Some(Question::Product(a, b)),
            "quotient" => Some(Question::Quotient(a, b)),
            "min" => Some(Question::Min(a, b)),
            "max" => Some(Question::Max(a, b)),
            _ => None,
        }
    }
}

impl Row {
    // The row that a line holds.
    pub fn parse(line: &[u8]) -> Option<Row> {
        let line = str::from_utf8(line).ok()?;
        let (name, rest) = line.split_once(' ')?;
        let (numbers, answer) = rest.rsplit_once(' ')?;
        Some(Row {
            question: Question::parse(name, numbers)?,
            answer: recorded::number(answer)?,
        })
    }

    // The bits of what the crate float answers.
    pub fn answered(self) -> u64 {
        bits::bits_of(match self.question {
            Question::Root(a) => float::root::root(a),
            Question::Sum(a, b) => arithmetic::sum(a, b),
            Question::Difference(a, b) => arithmetic::difference(a, b),
            Question::Product(a, b) => arithmetic::product(a, b),
            Question::Quotient(a, b) => arithmetic::quotient(a, b),
            Question::Min(a, b) => extrema::min(a, b),
            Question::Max(a, b) => extrema::max(a, b),
        })
    }
}

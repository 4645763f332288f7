// The arguments of a command that are more than one word.
use component::parameter::Data;
use geometry::vec3f::Vec3;
use spelling::line_words::Words;
use spelling::text::Text;

// The inputs of a new operation: how many there are, and the tags of the first three, empty where there are fewer.
// Kept: memory is fixed, so the tags stand in an array with their count beside it, and a count past three is legal input.
#[derive(Clone, Copy)]
pub struct Inputs {
    pub count: usize,
    pub tags: [Text; 3],
}

// An operator on vectors, with what it is asked of.
#[derive(Clone, Copy)]
pub enum Operator {
    Add(Vec3, Vec3),
    Subtract(Vec3, Vec3),
    Dot(Vec3, Vec3),
    Scale(Vec3, f64),
}

impl Inputs {
    // A count and so many tags. Tags that there is no room for are counted and not kept.
    // Kept: record's `read_rows` reads a count and so many rows too; shared, it and its trait would be public in spelling, for this one loop.
    fn read(words: &mut Words) -> Option<Inputs> {
        let count = words.decimal()?;
        let mut tags = [Text::new(); 3];
        for i in 0..count {
            let tag = words.text()?;
            if let Some(place) = tags.get_mut(i) {
                *place = tag;
            }
        }
        Some(Inputs { count, tags })
    }

    // Inputs that may be none at all.
    pub(crate) fn read_given(words: &mut Words) -> Option<Option<Inputs>> {
        match words.next()? {
            b"none" => Some(None),
            b"inputs" => Some(Some(Inputs::read(words)?)),
            _ => None,
        }
    }
}

// The data of a parameter.
pub(crate) fn data(words: &mut Words) -> Option<Data> {
    match words.next()? {
        b"value" => Some(Data::Value(words.float()?)),
        b"vec3" => Some(Data::Vec3(words.vec3()?)),
        b"boolean" => match words.decimal()? {
            0 => Some(Data::Boolean(false)),
            1 => Some(Data::Boolean(true)),
            _ => None,
        },
        _ => None,
    }
}

impl Operator {
    // An operator by its name, and what it is asked of.
    pub(crate) fn read(words: &mut Words) -> Option<Operator> {
        match words.next()? {
            b"add" => Some(Operator::Add(words.vec3()?, words.vec3()?)),
            b"sub" => Some(Operator::Subtract(words.vec3()?, words.vec3()?)),
            b"dot" => Some(Operator::Dot(words.vec3()?, words.vec3()?)),
            b"scale" => Some(Operator::Scale(words.vec3()?, words.float()?)),
            _ => None,
        }
    }
}

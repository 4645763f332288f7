// A model read from a record, as it stands: whether it is valid is not asked here.
use model::implicit_model::{ComponentEntry, InputList, Model, Place};
use spelling::line_words::Words;
use spelling::text::{record_tag, text_of};

// What a record has a row of.
trait Recorded: Copy {
    fn read(words: &mut Words) -> Option<Self>;
}

// A count and so many rows. Rows that there is no room for are counted and not kept.
fn read_rows<R: Recorded>(rows: &mut [R], words: &mut Words) -> Option<usize> {
    let count = words.decimal()?;
    for i in 0..count {
        let read = R::read(words)?;
        if let Some(row) = rows.get_mut(i) {
            *row = read;
        }
    }
    Some(count)
}

// A tag, or `-` for none.
impl Recorded for Place {
    fn read(words: &mut Words) -> Option<Place> {
        match words.next()? {
            b"-" => Some(None),
            word => Some(Some(record_tag(&text_of(word)?))),
        }
    }
}

impl Recorded for ComponentEntry {
    fn read(words: &mut Words) -> Option<ComponentEntry> {
        Some(ComponentEntry {
            tag: record_tag(&words.text()?),
            component: words.component()?,
        })
    }
}

impl Recorded for InputList {
    fn read(words: &mut Words) -> Option<InputList> {
        let tag = record_tag(&words.text()?);
        let mut places = [None; 3];
        let count = read_rows(&mut places, words)?;
        Some(InputList { tag, count, places })
    }
}

// Takes the word that stands at this place of every record; None where another stands there.
fn expect(word: &[u8], words: &mut Words) -> Option<()> {
    (words.next()? == word).then_some(())
}

// The model of the record that these words are, if they are one.
pub fn load(mut words: Words) -> Option<Model> {
    let mut model = held::reading::new();
    expect(b"default", &mut words)?;
    model.default = Place::read(&mut words)?;
    expect(b"components", &mut words)?;
    model.component_count = read_rows(&mut model.components, &mut words)?;
    expect(b"lists", &mut words)?;
    model.list_count = read_rows(&mut model.lists, &mut words)?;
    match words.next() {
        None => Some(model),
        Some(_) => None,
    }
}

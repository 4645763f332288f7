// The row of a new component written into the bytes of a model.
ghost use Rattle.std.specs.Prelude.{◌≡◌, ◌<◌, length};
ghost use Rattle.tag.specs.View.{bytes_of};
ghost use Rattle.direct_adding.specs.Put.{More};

use component::model_component::Component;
use direct_rows::put::put_entry;
use layout::model::{COMPONENT_COUNT, DEFAULT};
use model::implicit_model::ComponentEntry;
use rows::writing::{write_number, write_place};
use tag::Tag;

// One component more, after n, and the default d. Past the table nothing is written.
pub fn put_more(s: &mut [u8], n: usize, tag: Tag, component: Component, d: Tag)
    ensures { length s.old ≡ 27200 → n < 64 → More n (bytes_of tag) component (bytes_of d) s.old s.new }
{
    if 64 <= n {
        return;
    }
    put_entry(s, n, ComponentEntry { tag, component });
    write_place(s, DEFAULT, Some(d));
    write_number(s, COMPONENT_COUNT, n as u64 + 1);
}

// What a host asks of what a model holds: its default, its components and its input lists.
ghost use Rattle.opened.specs.Said.{held_in, Says};
ghost use Rattle.showing.specs.Tables.{of_default, component_at, ShowsComponent, component_under, list_place_at, ShowsList, list_under};

// The default.
#[unsafe(no_mangle)]
pub extern "C" fn dw_default(model: &[u8], out: &mut [u8]) -> u32
    ensures { Says (of_default (held_in model.now)) out.old out.new result }
{
    showing::tables::dw_default(model, out)
}

// The component at a position of the table.
#[unsafe(no_mangle)]
pub extern "C" fn dw_component_at(
    model: &[u8],
    position: u64,
    words: &mut [u8],
    out: &mut [u8],
) -> u32
    ensures { ShowsComponent (component_at model.now position) words.old words.new out.old out.new result }
{
    showing::tables::dw_component_at(model, position, words, out)
}

// The component with that tag.
#[unsafe(no_mangle)]
pub extern "C" fn dw_get_component(
    model: &[u8],
    tag: &[u8],
    words: &mut [u8],
    out: &mut [u8],
) -> u32
    ensures { ShowsComponent (component_under model.now tag.now) words.old words.new out.old out.new result }
{
    showing::tables::dw_get_component(model, tag, words, out)
}

// The input list at a position of the table.
#[unsafe(no_mangle)]
pub extern "C" fn dw_list_at(model: &[u8], position: u64, places: &mut [u8], out: &mut [u8]) -> u32
    ensures { ShowsList (list_place_at model.now position) places.old places.new out.old out.new result }
{
    showing::tables::dw_list_at(model, position, places, out)
}

// The input list with that tag, whether the tag has a component or not.
#[unsafe(no_mangle)]
pub extern "C" fn dw_get_inputs(model: &[u8], tag: &[u8], places: &mut [u8], out: &mut [u8]) -> u32
    ensures { ShowsList (list_under model.now tag.now) places.old places.new out.old out.new result }
{
    showing::tables::dw_get_inputs(model, tag, places, out)
}

// What a host asks of parameters: the data under a name, and what a screen shows of a kind.
ghost use Rattle.showing_parameters.specs.Parameters.{parameter_in, ShowsParameter, kind_of, of_kind, of_parameter};
ghost use Rattle.opened.specs.Said.{Says};

// The parameter of a component.
#[unsafe(no_mangle)]
pub extern "C" fn dw_read_parameter(
    model: &[u8],
    tag: &[u8],
    name: &[u8],
    words: &mut [u8],
    out: &mut [u8],
) -> u32
    ensures { ShowsParameter (parameter_in model.now tag.now name.now) words.old words.new out.old out.new result }
{
    showing_parameters::dw_read_parameter(model, tag, name, words, out)
}

// The name of a kind, and one more than its count of inputs; 0 where there is no such kind.
#[unsafe(no_mangle)]
pub extern "C" fn dw_type_name(kind: u64, out: &mut [u8]) -> u32
    ensures { Says (of_kind (kind_of kind)) out.old out.new result }
{
    showing_parameters::dw_type_name(kind, out)
}

// The parameter of a kind at a place, and what it takes: 1 a value, 2 a vec3, 0 where there is none.
#[unsafe(no_mangle)]
pub extern "C" fn dw_parameter(kind: u64, index: u64, out: &mut [u8]) -> u32
    ensures { Says (of_parameter (kind_of kind) index) out.old out.new result }
{
    showing_parameters::dw_parameter(kind, index, out)
}

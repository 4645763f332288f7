// The components of a form model: their kinds, values, and the rules on a parameter. A parameter is set by crate parameter_setting and read by parameter_reading.
#![tactic(auto)]

pub mod math;
pub mod model_component;
pub mod parameter;
pub mod range;

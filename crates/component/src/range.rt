// A range of numbers, by its two ends.
ghost use Rattle.std.specs.Prelude.{◌≡◌, cond};
ghost use Rattle.component.specs.Parameter.{too_near};

use crate::parameter::{self, ParameterError};

#[derive(Clone, Copy)]
pub struct Range {
    pub min: f64,
    pub max: f64,
}

impl Range {
    pub fn new(min: f64, max: f64) -> Range
        ensures { result ≡ record { min = min; max = max } }
    {
        Range { min, max }
    }

    // This range, where its ends lie apart.
    pub fn with_ends_apart(self) -> Result<Range, ParameterError>
        ensures { result ≡ cond (too_near self.min self.max) (Err ParameterError.TooNear) (Ok self) }
    {
        if parameter::too_near(self.min, self.max) {
            return Err(ParameterError::TooNear);
        }
        Ok(self)
    }
}

//! What holds of the definitions.
ghost use Rattle.filter_text.specs.Spells.{OneReading};

/// A text spells at most one filter.
pub fn one_reading()
    ensures { OneReading }
{}

//! Laws of lists of places: each function's contract is one of them, and its body does nothing.
ghost use Rattle.places.specs.Noted.{StrikingOneOfDistinct};

/// Of a list that has no place twice, to strike a place is to keep all others.
pub fn striking_one_of_distinct()
    ensures { StrikingOneOfDistinct }
{}

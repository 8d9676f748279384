//! Lists of places that only rise, so that what stands later was noted later.
ghost use Rattle.std.specs.Prelude.{◌≡◌, ◌==◌, ◌<◌, ℕ, false, true, length, OnOk};
ghost use Rattle.places.specs.Noted.{has_place, noted};
ghost use Rattle.unique_keys.specs.Inner.Listing.{Grown, GrownList, Shrunk};

use places::Places;
use std::alloc::AllocError;

/// Lists a place for a number that is behind all that are listed.
pub fn add(places: &mut Places, number: u64, place: usize) -> Result<(), AllocError>
    ensures grown { Grown place places.old places.new }
    ensures added { OnOk result (has_place (noted places.new number) place ≡ true) }
    ensures others { (other : ℕ) → (other == number) ≡ false → noted places.new other ≡ noted places.old other }
{
    places.add(number, place)
}

/// As `add`, in a list.
pub fn push_place(list: &mut Vec<usize>, place: usize) -> Result<(), AllocError>
    ensures grown { GrownList place list.old.items list.new.items }
    ensures added { OnOk result (has_place list.new.items place ≡ true) }
{
    list.push(place)?;
    Ok(())
}

/// Strikes a place of a number.
pub fn strike(places: &mut Places, number: u64, place: usize)
    ensures shrunk { Shrunk place places.old places.new }
    ensures others { (other : ℕ) → (other == number) ≡ false → noted places.new other ≡ noted places.old other }
    ensures fewer { has_place (noted places.old number) place ≡ true → length (noted places.new number) < length (noted places.old number) }
{
    places.remove(number, place);
}

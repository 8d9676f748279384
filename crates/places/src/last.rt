//! The last place in a list that is equal to a given one.
ghost use Rattle.std.specs.Prelude.{◌≡◌, IfSome, ◌<◌, length};
ghost use Rattle.std.specs.Option.{option_map_or};
ghost use Rattle.std.specs.List.{remove};
ghost use Rattle.places.specs.Noted.{without_last};

use smallvec::SmallVec;

/// Strikes the last place that is equal to this one.
pub fn remove_last(places: &mut SmallVec<usize, 2>, place: usize)
    ensures { places.new.items ≡ without_last place places.old.items }
{
    if let Some(index) = last_of(places.as_slice(), place) {
        places.remove(index);
    }
}

/// Where the last place stands that is equal to this one.
fn last_of(places: &[usize], place: usize) -> Option<usize>
    ensures struck { option_map_or (λ index. remove places.now index) result places.now ≡ without_last place places.now }
    ensures within { IfSome result (λ index. index < length places.now) }
{
    for index in (0..places.len()).rev() {
        if places[index] == place {
            return Some(index);
        }
    }
    None
}

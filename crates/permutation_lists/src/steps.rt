//! From one list to the next, in place.

ghost use Rattle.std.specs.Prelude.{true, false, ◌≡◌, ℕ, ◌+◌, ◌-◌, ◌^◌, ◌<◌, ◌≤◌, ◌∷◌, ◌++◌, [], length, take, sum, slice_index, slice_set, MatchOption, IfSome};
ghost use Rattle.permutation_lists.specs.Interleavings.{without, of_length};
ghost use Rattle.permutation_lists.specs.Inner.Prefixes.{behind, later, IsLeast, IsNoneLeft, IsUsedUp, IsAt};

/// The least session from one on that has a turn left.
fn least_from(left: &[u32], from: usize) -> Option<usize>
    ensures least { MatchOption result (IsNoneLeft left.now from) (λ y. IsLeast left.now from y) }
    ensures between { IfSome result (λ y. (i : ℕ) → from ≤ i → i < y → slice_index left.now i ≡ 0) }
{
    for session in from..left.len() {
        if left[session] > 0 {
            return Some(session);
        }
    }
    None
}

/// The least session that has a turn left, where those below one are known to have none.
fn least(left: &[u32], from: usize) -> usize
    requires some { 0 < sum left.now }
    requires below { IsUsedUp left.now from }
    ensures least { IsLeast left.now 0 result }
    ensures below { IsUsedUp left.now result }
{
    match least_from(left, from) {
        Some(session) => session,
        None => unreachable!(),
    }
}

/// Writes the least list of what is left from this place on.
pub fn fill(counts: &[u32], left: &mut [u32], last: &mut [u32], from: usize)
    requires few { length left.old ≤ 2 ^ 32 }
    requires from { from ≤ length last.old }
    requires at { IsAt counts.now (take from last.old) left.old }
    requires sum { sum left.old + from ≡ length last.old }
    ensures lists { behind counts.now (take from last.old) (length last.old - from) (of_length (length last.old - from) left.old) ≡ last.new ∷ later counts.now last.new }
    ensures at { IsAt counts.now last.new left.new }
    ensures sum { sum left.new ≡ 0 }
{
    let mut session = 0;
    for place in from..last.len() {
        session = least(left, session);
        left[session] -= 1;
        last[place] = session as u32;
    }
}

fn turn_back(left: &mut [u32], session: usize)
    requires within { session < length left.old }
    requires fits { slice_index left.old session + 1 < 2 ^ 32 }
    ensures { left.new ≡ slice_set left.old session (slice_index left.old session + 1) }
{
    left[session] += 1;
}

/// Gives the session at a place its turn back.
fn take_back(counts: &[u32], left: &mut [u32], last: &[u32], place: usize) -> usize
    requires within { place < length last.now }
    requires at { IsAt counts.now (take (place + 1) last.now) left.old }
    ensures session { result ≡ slice_index last.now place }
    ensures inside { result < length left.new }
    ensures at { IsAt counts.now (take place last.now) left.new }
    ensures sum { sum left.new ≡ sum left.old + 1 }
{
    let session = last[place] as usize;
    turn_back(left, session);
    session
}

/// Puts a later session at a place, and the least list behind it.
fn replace(
    counts: &[u32],
    left: &mut [u32],
    last: &mut [u32],
    place: usize,
    from: usize,
    other: usize,
)
    requires few { length left.old ≤ 2 ^ 32 }
    requires within { place < length last.old }
    requires at { IsAt counts.now (take place last.old) left.old }
    requires least { IsLeast left.old from other }
    requires sum { sum left.old + place ≡ length last.old }
    ensures lists { behind counts.now (take place last.old ++ other ∷ []) (length last.old - (place + 1)) (of_length (length last.old - (place + 1)) (without left.old other))
        ≡ last.new ∷ later counts.now last.new }
    ensures at { IsAt counts.now last.new left.new }
    ensures sum { sum left.new ≡ 0 }
{
    left[other] -= 1;
    last[place] = other as u32;
    fill(counts, left, last, place + 1);
}

/// Goes on to the next list, if there is one.
pub fn advance(counts: &[u32], left: &mut [u32], last: &mut [u32]) -> bool
    requires few { length left.old ≤ 2 ^ 32 }
    requires at { IsAt counts.now last.old left.old }
    requires sum { sum left.old ≡ 0 }
    ensures found { result ≡ true → later counts.now last.old ≡ last.new ∷ later counts.now last.new }
    ensures at { result ≡ true → IsAt counts.now last.new left.new }
    ensures sum { result ≡ true → sum left.new ≡ 0 }
    ensures none { result ≡ false → later counts.now last.old ≡ [] }
{
    let mut place = last.len();
    while place > 0 {
        place -= 1;
        let session = take_back(counts, left, last, place);
        match least_from(left, session + 1) {
            None => {}
            Some(other) => {
                replace(counts, left, last, place, session + 1, other);
                return true;
            }
        }
    }
    false
}

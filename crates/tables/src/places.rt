//! A row of places for claims. A key has one place in it; a claim put there takes the place of the one before.

ghost use Rattle.std.specs.Prelude.{◌≡◌, ◌<◌};
ghost use Rattle.tables.specs.Places.{place_of, place_ops};

use crate::Claim;
use games::Key;

/// The place of a key among so many.
fn place(key: Key, count: usize) -> usize
    requires { 0 < count }
    ensures value { result ≡ place_of count key }
    ensures within { result < count }
{
    ((key.first ^ key.second.rotate_left(17)) % count as u64) as usize
}

/// The claim for a key.
pub fn ask(places: &[Option<Claim>], key: Key) -> Option<Claim>
    ensures { result ≡ place_ops.answer places.now key }
{
    if places.is_empty() {
        return None;
    }
    places[place(key, places.len())].filter(|claim| claim.key == key)
}

/// Puts a claim at its key's place.
pub fn put(places: &mut [Option<Claim>], claim: Claim)
    ensures { places.new ≡ place_ops.put places.old claim }
{
    if !places.is_empty() {
        places[place(claim.key, places.len())] = Some(claim);
    }
}

/// Empties every place.
pub fn clear(places: &mut [Option<Claim>])
    ensures { places.new ≡ place_ops.clear places.old }
{
    places.fill(None)
}

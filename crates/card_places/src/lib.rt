// The card's places, searched and written over as a whole: nothing here knows of a phase or a command.
// Every search answers for every record; a place's number is a byte, and past the last place it reads as a place that is not held.
#![tactic(auto, unfolding(crate::proofs::Opened::searches))]

ghost use Rattle.std.specs.Prelude.{◌≡◌, ◌&&◌, ◌+◌, ◌<◌, IfSome, set, drop, eqb};
ghost use Rattle.card_isdp.specs.Sizes.{most_places};
ghost use Rattle.card_isdp.specs.LifeCycle.{is_enabled};
ghost use Rattle.card_isdp.specs.Place.{is_for, place_ok, clash};
ghost use Rattle.card_places.specs.Hashes.{hashes, hash_of};
ghost use Rattle.card_places.specs.Places.{at, seek, found_of, is_free, quotas, all_of, any_of, count_of, distinct, all_off, enable_at};

use card_isdp::{Isdp, clashes, is_for, place_ok};

pub const PLACES: usize = 32;

// An AID's hash is below this.
const HASHES: usize = 256;

// The place at a number.
pub fn at(places: &[Isdp; PLACES], i: u8) -> Isdp
    ensures { result ≡ at places.now i }
{
    let Some(p) = places.get(i as usize) else {
        return Isdp::none();
    };
    *p
}

// The place at a number written anew.
pub fn put(places: [Isdp; PLACES], i: u8, p: Isdp) -> [Isdp; PLACES]
    ensures { result ≡ set places i p }
{
    let n = i as usize;
    let mut all = places;
    if n < PLACES {
        all[n] = p;
    }
    all
}

// The number of the place found, as a byte.
fn number(i: Option<usize>) -> Option<u8>
    requires { IfSome i (λ n. n < most_places) }
    ensures { result ≡ i }
{
    Some(i? as u8)
}

// The place that bears an AID.
pub fn find(places: &[Isdp; PLACES], aid: &[u8]) -> Option<u8>
    ensures { result ≡ found_of (seek (is_for aid.now) places.now) }
{
    number(places.iter().position(|p| is_for(p, aid)))
}

// The place that is enabled.
pub fn enabled(places: &[Isdp; PLACES]) -> Option<u8>
    ensures { result ≡ found_of (seek is_enabled places.now) }
{
    number(places.iter().position(|p| p.life == Isdp::ENABLED))
}

// The lowest free place. Document 01, "Forms by place in the code", names this form: the search breaks with the index found.
pub fn free_place(places: &[Isdp; PLACES]) -> Option<u8>
    ensures { result ≡ found_of (seek is_free places.now) }
{
    let mut i = 0;
    loop {
        if i == PLACES {
            break None;
        }
        if places[i].aid.len == 0 {
            break Some(i as u8);
        }
        i += 1;
    }
}

// Do the quotas leave just so much of the capacity? Taken off one by one, since their sum could pass 32 bits (decision 60).
pub fn leave(places: &[Isdp; PLACES], capacity: u32, free: u32) -> bool
    ensures { result ≡ eqb (free + quotas places.now) capacity }
{
    let mut left = capacity;
    for p in places {
        if left < p.quota {
            return false;
        }
        left -= p.quota;
    }
    free == left
}

pub fn all_ok(places: &[Isdp; PLACES], capacity: u32) -> bool
    ensures { result ≡ all_of (place_ok capacity) places.now }
{
    places.iter().all(|p| place_ok(p, capacity))
}

// Does a place from `from` on bear the AID of `p`?
fn again(places: &[Isdp; PLACES], p: &Isdp, from: usize) -> bool
    ensures { result ≡ any_of (clash p.now) (drop from places.now) }
{
    places.iter().skip(from).any(|q| clashes(p, q))
}

// The hash of an AID.
fn hash_of(aid: &[u8]) -> usize
    ensures { (result ≡ hash_of aid.now) × (result < hashes) }
{
    let [.., c, b, a] = aid else {
        return 0;
    };
    (*a as usize + (29 * *b as usize + 7 * *c as usize)) % HASHES
}

// From the last place down, so that a place is held against the later ones, as in the definition; only where the hash of its AID was
// seen before.
pub fn all_distinct(places: &[Isdp; PLACES]) -> bool
    ensures { result ≡ distinct places.now }
{
    let mut seen = [false; HASHES];
    for i in (0..PLACES).rev() {
        let p = &places[i];
        if p.aid.len != 0 {
            let h = hash_of(p.aid.as_slice());
            if seen[h] && again(places, p, i + 1) {
                return false;
            }
            seen[h] = true;
        }
    }
    true
}

pub fn count_enabled(places: &[Isdp; PLACES]) -> usize
    ensures { result ≡ count_of is_enabled places.now }
{
    places.iter().filter(|p| p.life == Isdp::ENABLED).count()
}

// Every enabled place is disabled.
fn all_off(places: [Isdp; PLACES]) -> [Isdp; PLACES]
    ensures { result ≡ all_off places }
{
    let mut all = places;
    for p in &mut all {
        *p = p.off();
    }
    all
}

// The place is enabled, and the one that was is disabled.
pub fn enable_at(places: [Isdp; PLACES], i: u8) -> [Isdp; PLACES]
    ensures { result ≡ enable_at places i }
{
    let all = all_off(places);
    let p = at(&all, i);
    put(all, i, p.with_life(Isdp::ENABLED))
}

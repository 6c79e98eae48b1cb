// Places as code keeps them, of any type: the place that a key has or gets, and what a pause does to all.
ghost use Rattle.std.specs.Prelude.{◌≡◌, Bool, ℕ, map, ◌≤◌, length};
ghost use Rattle.words.specs.Lists.{any, count, first};
ghost use Rattle.places.specs.Places.{place_count};
ghost use Rattle.places.specs.Seats.{held_by, same_holder, one_each, place_for, closes, idled};

// A place: free, or open for the message of one key.
pub trait Seat: Copy {
    ghost is_free: { Self → Bool };

    ghost key_of: { Self → ℕ };

    ghost idle_after: { ℕ → Self → ℕ };

    ghost blank: { Self };

    ghost waited: { ℕ → Self → Self };

    fn is_free(&self) -> bool
        ensures { result ≡ is_free self.now };

    // Whose message it is, as one number.
    fn key(&self) -> u64
        ensures { result ≡ key_of self.now };

    // How long the message's frames have paused after so many milliseconds more.
    fn idle_after(&self, ms: u16) -> u32
        ensures { result ≡ idle_after ms self.now };

    // A free place.
    fn free() -> Self
        ensures { result ≡ blank };

    // The place with so long a pause of its message's frames.
    fn waited(self, idle: u16) -> Self
        ensures { result ≡ waited idle self };
}

// Whether a place is open for this key.
fn is_held_by<P: Seat>(place: &P, key: u64) -> bool
    ensures { result ≡ held_by P.is_free P.key_of key place.now }
{
    !place.is_free() && place.key() == key
}

// The lowest-numbered free place: the loop breaks off with it (RULES 13.12 asks for this form, and so it is no
// `position`).
fn lowest_free<P: Seat>(places: &[P]) -> Option<usize>
    ensures { result ≡ first P.is_free places.now }
{
    let mut lowest = None;
    for (at, place) in places.iter().enumerate() {
        if place.is_free() {
            lowest = Some(at);
            break;
        }
    }
    lowest
}

// The place that is open for this key.
pub fn open_by<P: Seat>(places: &[P], key: u64) -> Option<usize>
    ensures { result ≡ first (held_by P.is_free P.key_of key) places.now }
{
    places.iter().position(|place| is_held_by(place, key))
}

// The place that a key's message begins in: a key that has one open stays in its place, any other takes the
// lowest-numbered free one.
pub fn place_for<P: Seat>(places: &[P], key: u64) -> Option<usize>
    ensures { result ≡ place_for P.is_free P.key_of key places.now }
{
    open_by(places, key).or_else(|| lowest_free(places))
}

// Whether no key is open in two places.
pub fn one_each<P: Seat>(places: &[P]) -> bool
    ensures { result ≡ one_each P.is_free P.key_of places.now }
{
    let mut rest = places;
    while let Some((place, others)) = rest.split_first() {
        if is_shared(place, others) {
            return false;
        }
        rest = others;
    }
    true
}

// Whether one of these other places is open for the same key.
fn is_shared<P: Seat>(place: &P, others: &[P]) -> bool
    ensures { result ≡ any (same_holder P.is_free P.key_of place.now) others.now }
{
    others.iter().any(|other| same_holder(place, other))
}

// Whether the same key is open in both places.
fn same_holder<P: Seat>(place: &P, other: &P) -> bool
    ensures { result ≡ same_holder P.is_free P.key_of place.now other.now }
{
    !place.is_free() && is_held_by(other, place.key())
}

// A pause of so many milliseconds at all places: how many messages it closes, whose frames have paused for longer than
// the limit by now.
pub fn pause<P: Seat>(places: &mut [P], limit: u16, ms: u16) -> u8
    requires { length places.old ≤ place_count }
    ensures closed { result ≡ count (closes P.is_free P.idle_after limit ms) places.old }
    ensures after { places.new ≡ map (idled P.is_free P.idle_after P.blank P.waited limit ms) places.old }
{
    let mut closed = 0;
    for place in places {
        if closes(place, limit, ms) {
            closed += 1;
        }
        *place = idled(*place, limit, ms);
    }
    closed
}

// Whether a pause closes the message of a place.
fn closes<P: Seat>(place: &P, limit: u16, ms: u16) -> bool
    ensures { result ≡ closes P.is_free P.idle_after limit ms place.now }
{
    !place.is_free() && u32::from(limit) < place.idle_after(ms)
}

// A place after a pause.
fn idled<P: Seat>(place: P, limit: u16, ms: u16) -> P
    ensures { result ≡ idled P.is_free P.idle_after P.blank P.waited limit ms place }
{
    if place.is_free() {
        return place;
    }
    let idle = place.idle_after(ms);
    if u32::from(limit) < idle {
        return P::free();
    }
    place.waited(idle as u16)
}

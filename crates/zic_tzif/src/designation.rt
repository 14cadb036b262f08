//! Designations of local time types.

ghost use Rattle.std.specs.Prelude.{◌≡◌, ℕ, ◌==◌, ◌<◌, ◌≤◌, ◌&&◌, ◌||◌, nat_le, false, length, position, get_or};
ghost use Rattle.std.specs.List.{before_first};
ghost use Rattle.zic_tzif.specs.Designation.{designation, is_designated};
ghost use Rattle.zic_tzif.specs.declared.designation.TheConstants.{PLACES};

/// Returns the place of the first byte that equals `mark`.
pub fn place_of(octets: &[u8], mark: u8) -> Option<usize>
    ensures { result ≡ position (λ b. b == mark) octets.now }
{
    octets.iter().position(|b| *b == mark)
}

/// Returns the bytes before the first that equals `mark`, or all where none does.
fn before(octets: &[u8], mark: u8) -> &[u8]
    ensures { result.now ≡ before_first (λ b. b == mark) octets.now }
{
    let end = place_of(octets, mark).unwrap_or(octets.len());
    &octets[..end]
}

/// Returns the designation that begins at a place, without its NUL.
pub fn designation(names: &[u8], place: u8) -> &[u8]
    requires { place ≤ length names.now }
    ensures { result.now ≡ designation names.now place }
{
    before(&names[place as usize..], 0)
}

/// Returns the designation of this length that begins at a place.
pub fn designation_of(names: &[u8], place: u8, size: usize) -> &[u8]
    requires place { place ≤ length names.now }
    requires size { size ≡ length (designation names.now place) }
    ensures { result.now ≡ designation names.now place }
{
    let begun = &names[place as usize..];
    &begun[..size]
}

/// Returns whether a designation of printable ASCII begins at a byte, where one begins after it or
/// not.
fn begins_at(byte: u8, after: bool) -> bool
    ensures { result ≡ ((byte == 0) || (after && (nat_le 32 byte && nat_le byte 126))) }
{
    byte == 0 || after && 32 <= byte && byte <= 126
}

/// The number of places of designations: a place is a byte. RFC 9636, 3.2.
pub const PLACES: usize = 256;

/// Returns whether a designation of printable ASCII, ended by NUL, begins at each place.
///
/// Takes one pass over the bytes, however many types there are.
pub fn designated_places(names: &[u8]) -> [bool; PLACES]
    ensures { (place : ℕ) → place < PLACES
        → get_or result place false ≡ is_designated names.now place }
{
    let mut places = [false; PLACES];
    let mut begins = false;
    for passed in 0..names.len() {
        let place = names.len() - 1 - passed;
        begins = begins_at(names[place], begins);
        if place < PLACES {
            places[place] = begins;
        }
    }
    places
}

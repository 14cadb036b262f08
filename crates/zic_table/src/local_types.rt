//! Local time types and their designations.

ghost use Rattle.std.specs.Prelude.{◌≡◌, ◌<◌, ◌≤◌, ◌+◌, ◌∷◌, [], ◌++◌, length, map, IfOk};
ghost use Rattle.std.specs.Option.{MatchOption};
ghost use Rattle.zic_base.specs.Fault.{kind_of};
ghost use Rattle.zic_base.specs.Memory.{IfRefusal};
ghost use Rattle.zic_base.specs.State.{shown};
ghost use Rattle.zic_table.specs.code.LocalTypes.{AreLocalTypes, HasManyCharacters, IsPlaceOf, HasNoName};

use std::alloc::Global;
use zic_base::{Kind, State, ZoneStop};
use zic_tzif::{LocalType, MAX_CHARACTERS};

/// Local time types, and the bytes of their designations.
#[derive(Drop)]
pub(crate) struct Designated {
    pub(crate) types: Vec<LocalType>,
    pub(crate) names: Vec<u8>,
}

/// Returns the local time types of states, or `TooManyChars` where their designations have more
/// bytes than a table.
pub(crate) fn local_types(alloc: Global, states: &[State<'_>]) -> Result<Designated, ZoneStop>
    ensures ok { IfOk result
        (λ made. AreLocalTypes (map shown states.now) made.types.items made.names.items) }
    ensures err { IfRefusal kind_of result
        (λ kind. (kind ≡ Kind.TooManyChars) × HasManyCharacters (map shown states.now)) }
{
    let mut types = Vec::with_capacity(alloc, states.len())?;
    let mut names = Vec::new(alloc);
    for state in states {
        let place = match place_of(states, &types, state.name) {
            Some(place) => place,
            None => add_name(&mut names, state.name)?,
        };
        types.push(LocalType {
            offset: state.offset,
            daylight: state.daylight,
            place,
        })?;
    }
    Ok(Designated { types, names })
}

/// Returns the place of a designation, if one of the types made for the first of these states has
/// it.
fn place_of(states: &[State<'_>], types: &[LocalType], name: &[u8]) -> Option<u8>
    requires { length types.now ≤ length states.now }
    ensures { MatchOption result
        (HasNoName (map shown states.now) (length types.now) name.now)
        (IsPlaceOf (map shown states.now) types.now name.now) }
{
    for (i, made) in types.iter().enumerate() {
        if states[i].name == name {
            return Some(made.place);
        }
    }
    None
}

/// Adds a designation, ended by NUL, and returns its place, or `TooManyChars` where the bytes
/// would be too many.
fn add_name(names: &mut Vec<u8>, name: &[u8]) -> Result<u8, ZoneStop>
    requires { length names.old.items ≤ MAX_CHARACTERS }
    ensures ok { IfOk result (λ place. (place ≡ length names.old.items)
        × (length names.new.items ≤ MAX_CHARACTERS)
        × (names.new.items ≡ names.old.items ++ (name.now ++ 0 ∷ []))) }
    ensures err { IfRefusal kind_of result
        (λ kind. (kind ≡ Kind.TooManyChars)
        × (MAX_CHARACTERS < length names.old.items + (length name.now + 1))) }
{
    let place = names.len();
    if name.len() >= MAX_CHARACTERS - place {
        return Err(ZoneStop::Fault(Kind::TooManyChars));
    }
    names.extend_from_slice(name)?;
    names.push(0)?;
    Ok(place as u8)
}

//! Reading the line that creates a batch.
ghost use Rattle.std.specs.Prelude.{◌≡◌, ◌&&◌, true, length, map, nat_le, if◌then◌else◌, MatchOption, MatchResult, Ok, Err};
ghost use Rattle.std.specs.List.{list_all};
ghost use Rattle.batch_wire.specs.EventLine.{event_words, is_role_pair, role_pair_of, create_of};
ghost use Rattle.batch_wire.specs.Reading.{ReadsEvent};
ghost use Rattle.batch_wire.specs.declared.fault.WireFault.TheVariants.{Memory};

use crate::event_line::read_number;
use crate::fault::WireFault;
use crate::pairs::{are_at_most, parted};
use crate::words::EventWords;
use batch_engine::Event;
use batch_recipe::MAX_ROLES;
use batch_text::{Name, is_name};
use std::alloc::Global;

pub(crate) fn read_create(alloc: Global, mut arguments: EventWords<'_>) -> Result<Event, WireFault>
    ensures { ReadsEvent result (create_of (event_words arguments.entry.rest.now)) }
{
    let recipe = arguments.next().ok_or(WireFault::MissingArgument)?;
    let size = arguments.next().ok_or(WireFault::MissingArgument)?;
    let pairs = arguments.rest();
    if !are_at_most(EventWords::of(pairs), MAX_ROLES) {
        return Err(WireFault::ExtraArgument);
    }
    if !is_name(recipe) || !are_role_pairs(EventWords::of(pairs)) {
        return Err(WireFault::BadArgument);
    }
    let size = read_number(size)?;
    let recipe = Name::read(alloc, recipe).map_err(|_| WireFault::Memory)?;
    let roles = read_role_pairs(alloc, EventWords::of(pairs))?;
    Ok(Event::Create {
        recipe,
        size,
        roles,
    })
}

fn are_role_pairs(mut pairs: EventWords<'_>) -> bool
    ensures { result ≡ list_all is_role_pair (event_words pairs.entry.rest.now) }
{
    while let Some(pair) = pairs.next() {
        if !is_role_pair(pair) {
            return false;
        }
    }
    true
}

/// Whether the word is a name, `=` and a name.
fn is_role_pair(word: &[u8]) -> bool
    ensures { result ≡ is_role_pair word.now }
{
    let (role, unit) = parted(word);
    is_name(role) && is_name(unit)
}

/// The roles that pairs bind, each with its unit.
fn read_role_pairs(alloc: Global, mut pairs: EventWords<'_>) -> Result<Vec<(Name, Name)>, WireFault>
    requires { list_all is_role_pair (event_words pairs.rest.now) ≡ true }
    ensures { MatchResult result (λ roles. roles.items ≡ map role_pair_of (event_words pairs.entry.rest.now)) (λ fault. fault ≡ Memory) }
{
    let mut roles = Vec::new(alloc);
    while let Some(pair) = pairs.next() {
        roles.push(read_role_pair(alloc, pair)?)?;
    }
    Ok(roles)
}

/// The role that a pair binds, with its unit.
fn read_role_pair(alloc: Global, word: &[u8]) -> Result<(Name, Name), WireFault>
    requires { is_role_pair word.now ≡ true }
    ensures { MatchResult result (λ bound. bound ≡ role_pair_of word.now) (λ fault. fault ≡ Memory) }
{
    let (role, unit) = parted(word);
    let role = Name::read(alloc, role).map_err(|_| WireFault::Memory)?;
    let unit = Name::read(alloc, unit).map_err(|_| WireFault::Memory)?;
    Ok((role, unit))
}

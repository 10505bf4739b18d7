//! The needs of acts, by number.
ghost use Rattle.std.specs.Prelude.{◌≡◌, ◌<◌, length, IfOk};
ghost use Rattle.std.specs.List.{list_all};
ghost use Rattle.std.specs.Option.{ForSome};
ghost use Rattle.batch_cell.specs.LookUps.{resources_of, units_of};
ghost use Rattle.batch_verify.specs.Asking.{among_first, ask_by, asks_on, is_fitting, is_found, number_by, unit_by};
ghost use Rattle.batch_verify.specs.Walking.{known_unit};

use crate::rule::Rule;
use crate::site::Site;
use batch_recipe::Act;
use batch_set::{LinkedNeed, Source};

/// The number of the source's resource, where these units take the roles.
pub(crate) fn number_by(takers: &[Option<u16>], source: Source) -> Option<u16>
    ensures { result ≡ number_by takers.now source }
{
    match source {
        Source::Resource(number) => Some(number),
        Source::Role(role) => match takers.get(usize::from(role)) {
            None => None,
            Some(taker) => *taker,
        },
        Source::Unknown => None,
    }
}

/// The number of the source's resource at this site. None where it is none of the cell.
pub(crate) fn resource_by(site: &Site, source: Source) -> Option<u16>
    ensures number { result ≡ among_first (length (resources_of site.now.cell.now)) (number_by site.now.takers.now source) }
    ensures within { ForSome result (λ number. number < length (resources_of site.now.cell.now)) }
{
    match number_by(site.takers, source) {
        None => None,
        Some(number) => {
            if number < site.cell.resources() {
                Some(number)
            } else {
                None
            }
        }
    }
}

/// Whether the need is of a resource, and whether it is of no more units than this has. An unknown name has no units.
pub(crate) fn check_need(site: &Site, need: &LinkedNeed) -> (bool, bool)
    ensures resource { result.0 ≡ is_found (ask_by site.now.cell.now site.now.takers.now need.now) }
    ensures units { result.1 ≡ is_fitting site.now.cell.now (ask_by site.now.cell.now site.now.takers.now need.now) }
{
    match resource_by(site, need.source) {
        None => (false, need.units == 0),
        Some(number) => (true, need.units <= site.cell.capacity(number)),
    }
}

/// Whether each need is of a resource, and whether each is of no more units than its resource has.
pub(crate) fn check_needs(site: &Site, needs: &[LinkedNeed]) -> (bool, bool)
    ensures resources { result.0 ≡ list_all is_found (asks_on site.now needs.now) }
    ensures units { result.1 ≡ list_all (is_fitting site.now.cell.now) (asks_on site.now needs.now) }
{
    let mut are_resources = true;
    let mut are_within_capacity = true;
    for need in needs {
        let (is_resource, is_within_capacity) = check_need(site, need);
        are_resources = are_resources && is_resource;
        are_within_capacity = are_within_capacity && is_within_capacity;
    }
    (are_resources, are_within_capacity)
}

/// The number of the unit that the source is.
pub(crate) fn unit_from(site: &Site, source: Source) -> Result<Option<u16>, Rule>
    ensures unit { result ≡ known_unit (among_first (length (units_of site.now.cell.now)) (among_first (length (resources_of site.now.cell.now)) (number_by site.now.takers.now source))) }
    ensures within { IfOk result (λ unit. ForSome unit (λ number. number < length (units_of site.now.cell.now))) }
{
    match resource_by(site, source) {
        None => Err(Rule::UnknownResource),
        Some(number) => {
            if number < site.cell.units() {
                Ok(Some(number))
            } else {
                Err(Rule::UnknownResource)
            }
        }
    }
}

/// The number of the unit below the act, on a path that runs on the unit with this number. An act's own unit is the first of its
/// needs.
pub(crate) fn unit_under(
    site: &Site,
    act: &Act,
    needs: &[LinkedNeed],
    unit: Option<u16>,
) -> Result<Option<u16>, Rule>
    requires { ForSome unit (λ number. number < length (units_of site.now.cell.now)) }
    ensures unit { result ≡ unit_by site.now.cell.now act.now.unit (asks_on site.now needs.now) unit }
    ensures within { IfOk result (λ unit. ForSome unit (λ number. number < length (units_of site.now.cell.now))) }
{
    match (&act.unit, needs) {
        (None, _) => Ok(unit),
        (Some(_), [own, ..]) => unit_from(site, own.source),
        (Some(_), []) => Err(Rule::UnknownResource),
    }
}

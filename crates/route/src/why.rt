// Why a packet goes where it goes.
ghost use Rattle.std.specs.Prelude.{◌≡◌, ◌≤◌, ◌<◌};
ghost use Rattle.filter.specs.Sizes.{place_count};
ghost use Rattle.table.specs.Bearers.{last_identity, in_row};
ghost use Rattle.table.specs.Lists.{held_list};
ghost use Rattle.filter.specs.Fit.{fits};
ghost use Rattle.route.specs.Routes.{entry_fits, has_uplink};
ghost use Rattle.route.specs.Why.{why_none, why_on, why_of, why_number};

use crate::answer::{Refusal, Why};
use filter::component::{PLACES, PRECEDENCES};
use filter::{Filter, Header};
use table::bearer::index_of;
use table::list::is_uplink;
use table::{Bearer, Entry, Table};

pub fn why_number(answer: Result<Why, Refusal>) -> u8
    ensures { result ≡ why_number answer }
{
    match answer {
        Ok(_) => 0,
        Err(refusal) => refusal.number(),
    }
}

#[tactic(auto, using(table::proofs::Meaning::default_of), unfolding(crate::specs::Why::why_of))]
pub fn why(table: &Table, default: u8, header: &Header) -> Result<Why, Refusal>
    ensures { result ≡ why_of table.now default header.now }
{
    if !table.well_formed() {
        return Err(Refusal::NotWellFormed);
    }
    if !table.role_of(default).is_default() {
        return Err(Refusal::NoDefault);
    }
    if !header.valid_header() {
        return Err(Refusal::InvalidHeader);
    }
    Ok(first_fit(table, default, header))
}

// Positions are tried upward, and left at the first whose filter fits with what is told of it, which a `for` cannot give.
#[tactic(auto, using(crate::proofs::Firsts::held_place, crate::proofs::Firsts::held_told, crate::proofs::Firsts::held_never, crate::proofs::Firsts::none_start, crate::proofs::Firsts::none_more))]
fn first_fit(table: &Table, default: u8, header: &Header) -> Why
    requires { default ≤ last_identity }
    ensures { result ≡ why_on table.now default header.now (held_list table.now default) }
{
    // An entry is an octet, so the place that it names is there.
    table.typed();
    let mut position: usize = 0;
    loop {
        if position == PRECEDENCES {
            break where_none_fits(table, default);
        }
        let entry = table.entry_at(default, position as u8);
        if entry_fits(table, entry, header) {
            break Why::Filter {
                bearer: entry.bearer,
                place: entry.place,
                precedence: position as u8,
            };
        }
        position += 1;
    }
}

#[tactic(auto, unfolding(crate::specs::Routes::entry_fits, crate::specs::Routes::filter_of))]
fn entry_fits(table: &Table, entry: Entry, header: &Header) -> bool
    requires { (entry.bearer ≤ last_identity) × (entry.place < place_count) }
    ensures { result ≡ entry_fits table.now header.now entry }
{
    entry.bearer != 0 && place_fits(&table.bearers[index_of(entry.bearer)], entry.place, header)
}

fn place_fits(bearer: &Bearer, place: u8, header: &Header) -> bool
    requires { place < place_count }
    ensures { result ≡ fits (in_row bearer.now.row place) header.now }
{
    bearer.row[place as usize].fits(header)
}

#[tactic(auto, unfolding(crate::specs::Why::why_none))]
fn where_none_fits(table: &Table, default: u8) -> Why
    requires { default ≤ last_identity }
    ensures { result ≡ why_none table.now default }
{
    if has_uplink(&table.bearers[index_of(default)].row) {
        Why::Discard
    } else {
        Why::Default(default)
    }
}

#[tactic(auto, unfolding(crate::specs::Routes::has_uplink))]
fn has_uplink(row: &[Filter; PLACES]) -> bool
    ensures { result ≡ has_uplink row.now }
{
    row.iter().any(is_uplink)
}

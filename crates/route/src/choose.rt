// The choice of a bearer for an uplink packet.
ghost use Rattle.std.specs.Prelude.{◌≡◌};
ghost use Rattle.route.specs.Routes.{route_of};

use crate::answer::{Refusal, Route};
use crate::why::why;
use filter::Header;
use table::Table;

#[tactic(auto, using(crate::proofs::Whys::reason_routes, crate::proofs::Whys::refusal_routes))]
pub fn route(table: &Table, default: u8, header: &Header) -> Result<Route, Refusal>
    ensures { result ≡ route_of table.now default header.now }
{
    Ok(Route::from(why(table, default, header)?))
}

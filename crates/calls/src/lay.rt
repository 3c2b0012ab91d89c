// New filters laid on a bearer, over the old ones or in their place.
ghost use Rattle.std.specs.Prelude.{◌≡◌, false, ◌&&◌, get_or};
ghost use Rattle.laws.specs.Says.{pick};
ghost use Rattle.laws.specs.Index.{tab, any_below, picks};
ghost use Rattle.table.specs.Bearers.{bearer_count, identity_of, role_at, is_default, is_dedicated};
ghost use Rattle.table.specs.WellFormed.{RightLists};
ghost use Rattle.calls.specs.declared.reply.Answer.TheVariants.{Reattach, Release};
ghost use Rattle.calls.specs.Reply.{follow_of};
ghost use Rattle.calls.specs.Lay.{other_at, only_connection, lay_of};

use crate::incoming::{Incoming, Standing};
use crate::reply::{Answer, FollowUps, Reply};
use filter::Filter;
use filter::component::PLACES;
use table::Table;
use table::bearer::{BEARERS, FIRST_IDENTITY, index_of};
use table::list::only;

// Whether no default is of another connection.
#[tactic(auto, using(laws::proofs::Index::any_more, laws::proofs::Index::any_start, laws::proofs::Index::done), unfolding(crate::specs::Lay::only_connection, crate::specs::Lay::other_at))]
fn is_only(table: &Table, connection: u8) -> bool
    ensures { result ≡ only_connection table.now connection }
{
    let mut other = false;
    for (i, bearer) in table.bearers.iter().enumerate() {
        other = other | (bearer.role.is_default() & !(i as u8 + FIRST_IDENTITY == connection));
    }
    !other
}

fn release(table: &Table, connection: u8) -> Answer
    ensures { result ≡ pick (only_connection table.now connection) Reattach (Release connection) }
{
    if is_only(table, connection) {
        Answer::Reattach
    } else {
        Answer::Release(connection)
    }
}

#[tactic(auto, using(laws::proofs::Index::any_more, laws::proofs::Index::any_start, laws::proofs::Index::done))]
fn a_default_loses(table: &Table, losers: &[bool; BEARERS]) -> bool
    ensures { result ≡ any_below (λ i. is_default (role_at table.now i) && get_or losers.now i false) bearer_count }
{
    let mut any = false;
    for (i, bearer) in table.bearers.iter().enumerate() {
        any = any | (bearer.role.is_default() & losers[i]);
    }
    any
}

// Those that lose a filter are told of it.
#[tactic(auto, using(laws::proofs::Index::done, crate::proofs::Followers::follow_more, crate::proofs::Followers::follow_skip, crate::proofs::Followers::follow_room, crate::proofs::Followers::follow_start))]
fn followers(table: &Table, losers: &[bool; BEARERS]) -> FollowUps
    ensures { result ≡ follow_of (picks (λ i. is_dedicated (role_at table.now i) && get_or losers.now i false) identity_of bearer_count) }
{
    let mut follow = FollowUps::none();
    for (i, bearer) in table.bearers.iter().enumerate() {
        if bearer.role.is_dedicated() & losers[i] {
            follow.push(i as u8 + FIRST_IDENTITY);
        }
    }
    follow
}

// A conflict on the default releases the connection.
#[tactic(auto, using(crate::proofs::Changing::all_laid, crate::proofs::Changing::laid_means, crate::proofs::Changing::released_means, crate::proofs::Changing::spared))]
pub(crate) fn lay(table: &mut Table, bearer: u8, filters: &[Filter; PLACES], creates: bool) -> Reply
    requires { RightLists table.old }
    ensures { record { table = table.new; reply = result } ≡ lay_of table.old bearer filters.now creates }
{
    table.typed();
    let named = index_of(bearer);
    let connection = table.connection_at(named);
    let incoming = Incoming::new(filters, creates);
    let losers = incoming.losers(table, named, connection);
    if a_default_loses(table, &losers) {
        let answer = release(table, connection);
        table.drop_connection(connection);
        return Reply::alone(answer);
    }
    let follow = followers(table, &losers);
    for (i, bearer) in table.bearers.iter_mut().enumerate() {
        if (i == named) | losers[i] {
            let standing = Standing {
                named: i == named,
                connected: bearer.role.in_connection(i, connection),
            };
            incoming.lay_row(standing, &mut bearer.row);
        }
    }
    table.relist(&only(connection));
    Reply {
        answer: Answer::Accept(bearer),
        follow,
    }
}

ghost use Rattle.std.specs.Prelude.{◌≡◌, ◌≤◌, List, reverse, length};
ghost use Rattle.sr_law.specs.Groups.{keeps_groups, names_next_pool};
ghost use Rattle.sr_law.specs.Lawful.{broken};
ghost use Rattle.sr_law.specs.Newer.{is_new_pool, meets_newer};
ghost use Rattle.sr_law.specs.Number.{meets_number};
ghost use Rattle.sr_law.specs.Order.{meets_order, refuses_next};
ghost use Rattle.sr_law.specs.Retire.{endings_of, meets_retire};
ghost use Rattle.sr_law.specs.Same.{meets_same};
ghost use Rattle.sr_law.specs.Server.{meets_server};
ghost use Rattle.sr_law.specs.declared.line.Line.{Line as ALine};
ghost use Rattle.sr_law.specs.Ticks.{out_of};
ghost use Rattle.sr_law.specs.Shaped.{IsShaped};
ghost use Rattle.sr_audit.specs.Audit.{IsLawfulSoFar, Tells};
ghost use Rattle.sr_audit.specs.Clashes.{KeepsPlaces};
ghost use Rattle.sr_audit.specs.Endings.{TellsEndings};
ghost use Rattle.sr_audit.specs.Lately.{AreOut, Falls};
ghost use Rattle.sr_audit.specs.Used.{SweepsRise};

use crate::audit::Audit;
use crate::causes::has_cause;
use crate::endings::Endings;
use crate::in_use::is_in_use;
use crate::lately::rises;
use crate::retiring::may_retire;
use sr_law::{
    Clause, Line, Opening, Setup, goes_on, has_pool, in_range, is_opening_give, opened_by,
};

// A pool that is given exists, and comes after those that its virtual address was given; the one that it switches to is the last given.
fn names_next_pool(audit: &Audit, setup: &Setup, before: &[Line], line: &Line) -> bool
    requires { Tells setup.now audit.now (reverse before.now) }
    ensures { result ≡ names_next_pool setup.now.pools (reverse before.now) line.now }
{
    match *line {
        Line::Given { vip, pool, .. } => {
            setup.pools.of(vip, pool).is_some() && !audit.given.has_past(vip, pool)
        }
        Line::Switched { vip, pool, .. } => has_pool(audit.givings.last(vip), pool),
        _ => true,
    }
}

// Changes are refused in the script's order.
fn refuses_next(audit: &Audit, setup: &Setup, before: &[Line], line: &Line) -> bool
    requires { Tells setup.now audit.now (reverse before.now) }
    ensures { result ≡ refuses_next (reverse before.now) line.now }
{
    match *line {
        Line::Refused { change, .. } => !audit.refused.has_past(change),
        _ => true,
    }
}

// The first lines give every virtual address its first pool, and after them each update goes on as it must.
#[tactic(auto, unfolding(sr_law::specs::Groups::keeps_groups))]
fn keeps_groups(audit: &Audit, setup: &Setup, before: &[Line], line: &Line) -> bool
    requires { Tells setup.now audit.now (reverse before.now) }
    ensures { result ≡ keeps_groups setup.now (reverse before.now) line.now }
{
    let goes = if before.len() < setup.pools.vips() {
        is_opening_give(before.len(), line)
    } else {
        goes_on(audit.update.last(), line)
    };
    goes && names_next_pool(audit, setup, before, line)
}

// A line stands in order.
#[tactic(auto, unfolding(sr_law::specs::Order::meets_order))]
fn meets_order(audit: &Audit, setup: &Setup, before: &[Line], line: &Line) -> bool
    requires shape { IsShaped setup.now.shape }
    requires falls { Falls (reverse before.now) }
    requires tells { Tells setup.now audit.now (reverse before.now) }
    ensures { result ≡ meets_order setup.now (reverse before.now) line.now }
{
    keeps_groups(audit, setup, before, line)
        && rises(before, line)
        && in_range(setup, line)
        && audit.places.keep(line)
        && refuses_next(audit, setup, before, line)
}

// The line names the right server, if any.
fn meets_server(audit: &Audit, setup: &Setup, before: &[Line], line: &Line) -> bool
    requires { Tells setup.now audit.now (reverse before.now) }
    ensures { result ≡ meets_server setup.now.pools (reverse before.now) line.now }
{
    match line.choice() {
        Some(choice) => {
            has_pool(
                audit.versions.last(choice.key.vip, choice.version),
                choice.pool,
            ) && match setup.pools.server(choice.pool, choice.key) {
                Some(server) => server == choice.server,
                None => false,
            }
        }
        None => true,
    }
}

// A packet of an open connection that began after its opening has the opening's pool.
fn meets_same(audit: &Audit, setup: &Setup, before: &[Line], line: &Line) -> bool
    requires { Tells setup.now audit.now (reverse before.now) }
    ensures { result ≡ meets_same (reverse before.now) line.now }
{
    match line.choice() {
        Some(choice) => match audit.connections.opening(choice.key) {
            Some(opening) => line.start() <= opening.out || choice.pool == opening.pool,
            None => true,
        },
        None => true,
    }
}

// The pool of an opening is from the last switch on, and one that was given.
fn is_new_pool(
    audit: &Audit,
    setup: &Setup,
    before: &[Line],
    vip: u8,
    start: u64,
    opening: Opening,
) -> bool
    requires { Tells setup.now audit.now (reverse before.now) }
    ensures { result ≡ is_new_pool (reverse before.now) vip start (Some opening) }
{
    let from = match audit.switches.last(vip, start) {
        Some(switched) => switched <= opening.pool,
        None => true,
    };
    let up_to = match audit.givings.last(vip) {
        Some(giving) => opening.pool <= giving.pool,
        None => true,
    };
    from && up_to
}

// An opening line uses the pool of the last switch before it started, or a later one that was given.
#[tactic(auto, unfolding(sr_law::specs::Newer::meets_newer))]
fn meets_newer(audit: &Audit, setup: &Setup, before: &[Line], line: &Line) -> bool
    requires { Tells setup.now audit.now (reverse before.now) }
    ensures { result ≡ meets_newer (reverse before.now) line.now }
{
    match line.key() {
        Some(key) => audit.connections.opening(key).is_some()
            || match opened_by(line, key) {
                Some(opening) => is_new_pool(audit, setup, before, key.vip, line.start(), opening),
                None => true,
            },
        None => true,
    }
}

// A version that is given after the first lines is one of the shape and isn't in use.
#[tactic(auto, unfolding(sr_law::specs::Number::meets_number))]
fn meets_number(audit: &Audit, setup: &Setup, before: &[Line], line: &Line) -> bool
    requires { Tells setup.now audit.now (reverse before.now) }
    ensures { result ≡ meets_number setup.now (reverse before.now) line.now }
{
    match *line {
        Line::Given { vip, version, .. } => {
            before.len() < setup.pools.vips()
                || (version.number() < setup.shape.versions
                    && !is_in_use(audit, setup, before, vip, version.number()))
        }
        _ => true,
    }
}

// A sweep is the next one, and a connection that is retired was open, and quiet.
#[tactic(auto, unfolding(sr_law::specs::Retire::meets_retire))]
fn meets_retire(
    audit: &Audit,
    endings: &Endings,
    setup: &Setup,
    before: &[Line],
    line: &Line,
) -> bool
    requires falls { Falls (reverse before.now) }
    requires rise { SweepsRise (reverse before.now) }
    requires tells { Tells setup.now audit.now (reverse before.now) }
    ensures { (all : List ALine) → TellsEndings endings.now all (out_of line.now)
        → result ≡ meets_retire setup.now (endings_of all) (reverse before.now) line.now }
{
    match *line {
        Line::Swept { number, at_ms, .. } => {
            audit.sweep.is_next(setup.shape.idle_ms, number, at_ms)
        }
        Line::Retired { out, key } => may_retire(audit, endings, setup, before, key, out),
        _ => true,
    }
}

// The first clause that a line breaks, by the lines before it and the Ending packets of all lines: the index tells of those that entered
// before this line was out, if the lines before it were.
#[tactic(auto, unfolding(sr_law::specs::Lawful::broken))]
pub(crate) fn broken(
    audit: &Audit,
    endings: &Endings,
    setup: &Setup,
    before: &[Line],
    line: &Line,
) -> Option<Clause>
    requires shape { IsShaped setup.now.shape }
    requires vips { length setup.now.pools ≤ 16 }
    requires falls { Falls (reverse before.now) }
    requires kept { KeepsPlaces setup.now.shape (reverse before.now) }
    requires rise { SweepsRise (reverse before.now) }
    requires tells { Tells setup.now audit.now (reverse before.now) }
    ensures { (all : List ALine)
        → (AreOut (out_of line.now) (reverse before.now) → TellsEndings endings.now all (out_of line.now))
        → result ≡ broken setup.now (endings_of all) (reverse before.now) line.now }
{
    if !meets_order(audit, setup, before, line) {
        return Some(Clause::Order);
    }
    if !meets_server(audit, setup, before, line) {
        return Some(Clause::Server);
    }
    if !meets_same(audit, setup, before, line) {
        return Some(Clause::Same);
    }
    if !meets_newer(audit, setup, before, line) {
        return Some(Clause::Newer);
    }
    if !meets_number(audit, setup, before, line) {
        return Some(Clause::Number);
    }
    if !has_cause(audit, setup, before, line) {
        return Some(Clause::Cause);
    }
    if !meets_retire(audit, endings, setup, before, line) {
        return Some(Clause::Retire);
    }
    None
}

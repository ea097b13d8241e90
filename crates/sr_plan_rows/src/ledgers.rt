ghost use Rattle.std.specs.Prelude.{◌≡◌, None, Some, true};
ghost use Rattle.sr_shadow.specs.Book.{entry_for};
ghost use Rattle.sr_shadow.specs.declared.entry.Entry.{Entry as AnEntry};

use crate::books::client;
use sr_base::{Key, Layout, Place, Version};
use sr_plan::{Plan, plan_in};
use sr_shadow::{Ledger, ledger_rules, own_places_stand, plans_give};
use std::alloc::{AllocError, Global};

// A key comes to a ledger, and settles as planned where that is in a slot or a row. Its plan; None where it has a Live place.
pub(crate) fn come(
    alloc: Global,
    ledger: &mut Ledger,
    layout: &Layout,
    key: Key,
) -> Result<Option<Plan>, AllocError>
    requires { ledger.old.layout ≡ layout.now }
    ensures { ledger.new.layout ≡ ledger.old.layout }
{
    ledger.reserve(alloc, 1)?;
    if ledger.taken() < 1 << 58 {
        ledger.take(key, Version::zero());
    }
    Ok(settle(ledger, layout, key))
}

// The key settles as planned, where that is in a slot or a row.
fn settle(ledger: &mut Ledger, layout: &Layout, key: Key) -> Option<Plan>
    requires { ledger.old.layout ≡ layout.now }
    ensures { ledger.new.layout ≡ ledger.old.layout }
{
    if !is_pending(ledger, key) {
        return None;
    }
    let plan = plan_in(ledger, layout, key);
    ledger_rules(ledger);
    plans_give();
    own_places_stand(layout);
    match plan {
        Plan::Slot { place } => ledger.settle(key, place),
        Plan::FullKey { row } => ledger.settle(key, Place::Row { row }),
        _ => {}
    }
    Some(plan)
}

// Whether the key is registered, and has no Live place.
fn is_pending(ledger: &Ledger, key: Key) -> bool
    ensures { result ≡ true → (e : AnEntry) × (entry_for key ledger.now.book.entries ≡ Some e) × (e.place ≡ None) }
{
    match ledger.get(key) {
        Some(entry) => entry.place.is_none(),
        None => false,
    }
}

// The connection ends where it does, and is swept until it may be retired.
fn end_if(ledger: &mut Ledger, key: Key, ends: bool)
    ensures { ledger.new.layout ≡ ledger.old.layout }
{
    if ends {
        ledger.close(key);
        ledger.sweep(key, true);
        ledger.sweep(key, false);
    }
    retire_first(ledger);
}

// The first that may be retired is.
fn retire_first(ledger: &mut Ledger)
    ensures { ledger.new.layout ≡ ledger.old.layout }
{
    if let Some(entry) = ledger.first_retirable() {
        let key = entry.key;
        ledger.retire(key);
    }
}

// The plan of the second of two clients that come to a ledger. The first one's connection has ended, or it hasn't.
pub(crate) fn last_plan(
    alloc: Global,
    layout: &Layout,
    ended: bool,
) -> Result<Option<Plan>, AllocError> {
    let mut ledger = Ledger::new(alloc, layout)?;
    come(alloc, &mut ledger, layout, client(9, 4000))?;
    end_if(&mut ledger, client(9, 4000), ended);
    come(alloc, &mut ledger, layout, client(10, 4000))
}

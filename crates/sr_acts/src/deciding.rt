//! What the controller reads off its own view.

ghost use Rattle.std.specs.Prelude.{◌≡◌, ◌≤◌, length, slice_index};
ghost use Rattle.sr_base.specs.WordName.{HasPlace};
ghost use Rattle.sr_machine.specs.Deciding.{dead_reply, is_contested, is_down, is_withdrawn, learned, reply_if, rivals_of, server_for, update_pool, verdict_of, verdict_under};
ghost use Rattle.sr_machine.specs.Stages.{verdict_by};
ghost use Rattle.sr_acts.specs.Fits.{FitsUpdate};

use crate::ControllerMachine;
use crate::asking::is_clashing_with;
use sr_base::{Key, Layout, Place, Version};
use sr_law::Verdict;
use sr_machine::{Aim, PoolUpdate, Put, Reply};
use sr_shadow::Ledger;

impl ControllerMachine {
    // The server of a key under a version.
    fn server_for(&self, key: Key, version: Version) -> u32
        ensures { result ≡ server_for self.now.config self.now.view.named key version }
    {
        match self
            .config
            .pools()
            .server(self.versions.named(key.vip, version), key)
        {
            Some(server) => server,
            None => 0,
        }
    }

    // The answer to an opener of the key under a version.
    fn verdict_under(&self, key: Key, version: Version) -> Verdict
        ensures { result ≡ verdict_under self.now.config self.now.view.named self.now.view.down key version }
    {
        let server = self.server_for(key, version);
        let pool = self.versions.named(key.vip, version);
        verdict_by(is_down(self.down.as_slice(), server), server, version, pool)
    }

    // The answer to an opener; without a version there is no place for it.
    pub(crate) fn verdict_of(&self, key: Key, version: Option<Version>) -> Verdict
        ensures { result ≡ verdict_of self.now.config self.now.view.named self.now.view.down key version }
    {
        match version {
            Some(version) => self.verdict_under(key, version),
            None => Verdict::NoPlace,
        }
    }

    // The answer to the held opener whose key is put, where the server that it would learn is down.
    pub(crate) fn dead_reply(&self, aim: &Aim) -> Option<Reply>
        ensures { result ≡ dead_reply self.now.config self.now.view aim.now }
    {
        match aim {
            Aim::Held(opener) => {
                let version = self.versions.learned(opener.key.vip);
                let server = self.server_for(opener.key, version);
                let registered = self.book.ledger().is_registered(opener.key);
                if !registered && is_down(self.down.as_slice(), server) {
                    Some(Reply {
                        held: *opener,
                        version: Some(version),
                    })
                } else {
                    None
                }
            }
            _ => None,
        }
    }

    // Whether a reserved entry is given up.
    #[tactic(auto, unfolding(sr_machine::specs::Deciding::is_withdrawn))]
    pub(crate) fn is_withdrawn(&self, put: &Put) -> bool
        requires { HasPlace self.now.config.layout.shape put.now.place }
        ensures { result ≡ is_withdrawn self.now.config self.now.view put.now }
    {
        is_contested(self.config.layout(), put, self.book.ledger())
            || self.dead_reply(&put.aim).is_some()
    }

    // How many servers the pool of an update has.
    #[tactic(auto, using(crate::proofs::Pools::pool_size))]
    pub(crate) fn pool_size(&self, update: &PoolUpdate) -> u8
        requires { FitsUpdate self.now.config update.now }
        ensures value { result ≡ length (update_pool self.now.config update.now) }
        ensures some { 1 ≤ result }
        ensures most { result ≤ self.now.config.layout.shape.pool_max }
    {
        self.config.fits();
        match self.config.pools().of(update.vip, update.pool) {
            Some(pool) => pool.size(),
            None => unreachable!(),
        }
    }

    // One of them.
    pub(crate) fn pool_server(&self, update: &PoolUpdate, index: u8) -> u32
        ensures { result ≡ slice_index (update_pool self.now.config update.now) index }
    {
        match self.config.pools().of(update.vip, update.pool) {
            Some(pool) => {
                if index < pool.size() {
                    pool.at(index)
                } else {
                    0
                }
            }
            None => 0,
        }
    }
}

// Whether a server was taken down.
fn is_down(down: &[u32], server: u32) -> bool
    ensures { result ≡ is_down down.now server }
{
    for other in down {
        if server == *other {
            return true;
        }
    }
    false
}

// The verdict by a server that is down or isn't.
fn verdict_by(down: bool, server: u32, version: Version, pool: u64) -> Verdict
    ensures { result ≡ verdict_by down server version pool }
{
    if down {
        Verdict::Down {
            server,
            version,
            pool,
        }
    } else {
        Verdict::To {
            server,
            version,
            pool,
        }
    }
}

// Whether in the slot that a key is put into another registered key clashes with it; in a move the planned key counts as one.
fn is_contested(layout: &Layout, put: &Put, book: &Ledger) -> bool
    requires place { HasPlace layout.now.shape put.now.place }
    requires made { book.now.layout ≡ layout.now }
    ensures { result ≡ is_contested layout.now.shape put.now.place put.now.key (rivals_of put.now.aim book.now.book.entries) }
{
    match put.place {
        Place::Slot { way, .. } => match &put.aim {
            Aim::Move { planned, .. } => is_clashing_with(book, layout, *planned, way, put.key),
            _ => book.clashing(way, put.key),
        },
        Place::Row { .. } => false,
    }
}

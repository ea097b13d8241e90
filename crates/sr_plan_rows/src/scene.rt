ghost use Rattle.std.specs.Prelude.{◌≡◌, true};
ghost use Rattle.sr_shadow.specs.Plan.{IsUnplaced};

use sr_base::{Key, Layout, Place, Version};
use sr_plan::{Plan, plan};
use sr_shadow::{Shadow, plan_plain};
use std::alloc::{AllocError, Global};

/// A book, and the layout that it was made of.
#[derive(Drop)]
pub(crate) struct Scene {
    book: Shadow,
    layout: Layout,
    ghost made: { book.layout ≡ layout },
}

impl Scene {
    pub(crate) fn new(alloc: Global, layout: Layout) -> Result<Scene, AllocError> {
        let book = Shadow::new(alloc, &layout)?;
        Ok(Scene { book, layout })
    }

    // The plan of a key, where it has no Live place.
    pub(crate) fn plan(&self, key: Key) -> Option<Plan> {
        if may_plan(&self.book, key) {
            Some(plan(&self.book, &self.layout, key))
        } else {
            None
        }
    }

    // The same by the plain body.
    pub(crate) fn plan_plain(&self, alloc: Global, key: Key) -> Result<Option<Plan>, AllocError> {
        if may_plan(&self.book, key) {
            Ok(Some(plan_plain(alloc, &self.book, &self.layout, key)?))
        } else {
            Ok(None)
        }
    }

    // Registers a key.
    pub(crate) fn take(&mut self, alloc: Global, key: Key) -> Result<(), AllocError> {
        if self.book.taken() < 1 << 56 {
            self.book.take(alloc, key, Version::zero())?;
        }
        Ok(())
    }

    // Puts a registered key into a place, where it may be.
    pub(crate) fn settle(&mut self, key: Key, place: Place) {
        if self.book.can_settle(key, place) {
            self.book.settle(key, place);
        }
    }

    // Lets a key leave the place that it had before.
    pub(crate) fn leave(&mut self, key: Key) {
        if self.book.can_leave(key) {
            self.book.leave(key);
        }
    }

    // Registers a key, and does what is planned for it.
    pub(crate) fn place(&mut self, alloc: Global, key: Key) -> Result<(), AllocError> {
        self.take(alloc, key)?;
        if let Some(plan) = self.plan(key) {
            self.follow(key, plan);
        }
        Ok(())
    }

    pub(crate) fn follow(&mut self, key: Key, plan: Plan) {
        match plan {
            Plan::Slot { place } => self.settle(key, place),
            Plan::FullKey { row } => self.settle(key, Place::Row { row }),
            Plan::Move {
                key: other,
                to,
                then,
                ..
            } => self.follow_move(key, other, to, then),
            Plan::NoRoom => {}
        }
    }

    pub(crate) fn follow_move(&mut self, key: Key, other: Key, to: Place, then: Place) {
        self.settle(other, to);
        self.leave(other);
        self.settle(key, then);
    }

    pub(crate) fn retire(&mut self, key: Key) {
        self.book.retire(key);
    }
}

fn may_plan(book: &Shadow, key: Key) -> bool
    ensures { result ≡ true → IsUnplaced key book.now.book.entries }
{
    match book.get(key) {
        Some(entry) => entry.place.is_none(),
        None => true,
    }
}

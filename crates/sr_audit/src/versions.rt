ghost use Rattle.std.specs.Prelude.{◌≡◌, ◌<◌, List, [], IfOk};
ghost use Rattle.sr_law.specs.Given.{last_version};
ghost use Rattle.sr_law.specs.declared.line.Line.{Line as ALine};
ghost use Rattle.sr_audit.specs.Index.{KeptWith};
ghost use Rattle.sr_audit.specs.Versions.{TellsVersions};

use sr_base::Version;
use sr_law::{Giving, Line};
use std::alloc::{AllocError, Global};
use std::marker::Model;

// What each version of each virtual address was last given.
#[derive(Drop)]
pub(crate) struct Versions {
    cells: Vec<Option<Giving>>,
}

impl Model for Versions {
    ghost use Rattle.std.specs.Prelude.{◌≡◌, List, Option, length};
    ghost use Rattle.sr_law.specs.declared.giving.Giving.{Giving};

    ghost Value = { List (Option Giving) };

    ghost view = { λ v. v.cells.items };

    ghost invariant = { λ v. length v.cells.items ≡ 1024 };
}

impl Versions {
    // Of no lines.
    pub(crate) fn new(alloc: Global) -> Result<Versions, AllocError>
        ensures { IfOk result (λ v. TellsVersions v []) }
    {
        Ok(Versions {
            cells: vec![in alloc; None; 1024]?,
        })
    }

    // One line more.
    #[tactic(auto, using(crate::proofs::Tables::given_more))]
    pub(crate) fn absorb(&mut self, line: &Line)
        ensures { KeptWith TellsVersions self.old self.new line.now }
    {
        if let Line::Given {
            vip,
            version,
            pool,
            ..
        } = *line
        {
            if vip < 16 {
                self.cells[vip as usize * 64 + version.number() as usize] = Some(Giving {
                    version,
                    pool,
                });
            }
        }
    }

    // What this version was last given.
    pub(crate) fn last(&self, vip: u8, version: Version) -> Option<Giving>
        requires { vip < 16 }
        ensures { (before : List ALine) → TellsVersions self.now before → result ≡ last_version before vip version }
    {
        self.cells[vip as usize * 64 + version.number() as usize]
    }
}

//! A packet that is held until the controller has drawn a tick between two packets of another pipe: so they run beside one another.
use crate::bytes::openers;
use crate::play::owned;
use sr_base::Key;
use sr_hash::pipe_of;
use sr_io::{Gate, SureShelf, SureSink, SureSource};
use sr_run::run;
use std::alloc::{AllocError, Global};
use std::sync::atomic::{AtomicU64, Ordering};
use std::test::Fail;
use std::thread::Threads;

// Two pipes, and room for all connections.
const SCRIPT: &str = "servers = [\"10.1.0.1:80\"]
[shape]
pipes = 2
buckets = 65536
[[vip]]
addr = \"192.0.2.1:80\"
pool = [0]
";

// How many openers the pipe has that isn't held.
const OPENERS: usize = 60_000;

// How often the held packet looks, at most.
const LOOKS: u64 = 1 << 30;

// A gate that holds the packet of pipe 0 until two packets of pipe 1 that pass in a row have a tick between them that neither pipe drew.
#[derive(Drop)]
struct Holding {
    // When the last packet of pipe 1 entered, and when that of pipe 0 did; 0 for not yet.
    last: AtomicU64,
    held: AtomicU64,
    // 1 once such a tick was seen, and 1 once the looks were over.
    seen: AtomicU64,
    over: AtomicU64,
}

impl Holding {
    fn new() -> Holding {
        Holding {
            last: AtomicU64::new(0),
            held: AtomicU64::new(0),
            seen: AtomicU64::new(0),
            over: AtomicU64::new(0),
        }
    }

    // Holds the packet that entered at this tick.
    fn hold(&self, entered: u64) {
        self.held.store(entered, Ordering::SeqCst);
        for _look in 0..LOOKS {
            if self.seen.load(Ordering::SeqCst) != 0 {
                return;
            }
        }
        self.over.store(1, Ordering::SeqCst);
    }

    // Lets the packet that entered at this tick pass, and sees whether there was a tick before it that neither pipe drew.
    fn look(&self, entered: u64) {
        let last = self.last.swap(entered, Ordering::SeqCst);
        let held = self.held.load(Ordering::SeqCst);
        let own = if last < held && held < entered { 3 } else { 2 };
        if last != 0 && held != 0 && entered.saturating_sub(last) > own {
            self.seen.store(1, Ordering::SeqCst);
        }
    }
}

impl Gate for Holding {
    ghost passed = { λ gate pipe entered. Unit {0} };

    fn pass(&self, pipe: u8, entered: u64) {
        if pipe == 0 {
            self.hold(entered);
        } else {
            self.look(entered);
        }
    }
}

// A client of pipe 0, and then those of pipe 1.
fn clients(alloc: Global) -> Result<Vec<u32>, AllocError> {
    let mut all = Vec::new(alloc);
    for client in 0x0a00_0000..0x0a03_0000 {
        if let Some(key) = Key::new(0, client, 4000) {
            let is_held = pipe_of(key, 2) == 0;
            if is_held == all.is_empty() && all.len() <= OPENERS {
                all.push(client)?;
            }
        }
    }
    Ok(all)
}

// The status of a replay of them with this gate.
fn replayed<R: Threads + Sync>(
    rt: &R,
    alloc: Global,
    clients: &[u32],
    gate: &Holding,
) -> Result<u8, AllocError> {
    let words = owned(alloc, "replay|script")?;
    let mut source = SureSource::new(openers(alloc, clients)?, 65_536);
    let mut shelf = SureShelf::new(Vec::from_slice(alloc, SCRIPT.as_bytes())?);
    let mut sink = SureSink::new(alloc, 0)?;
    let status = run(rt, alloc, &words, &mut source, &mut shelf, &mut sink, gate);
    Ok(status.code())
}

#[test]
fn controller_runs_beside_the_pipes(rt: HostRuntime) -> Result<(), Fail> {
    let clients = clients(rt.alloc())?;
    assert_eq!(rt; clients.len(), OPENERS + 1);
    let gate = Holding::new();
    assert_eq!(rt; replayed(&rt, rt.alloc(), &clients, &gate)?, 0);
    assert_eq!(rt; gate.over.load(Ordering::SeqCst), 0, "the looks were over");
    assert_eq!(rt; gate.seen.load(Ordering::SeqCst), 1);
    Ok(())
}

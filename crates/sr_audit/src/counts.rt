ghost use Rattle.std.specs.Prelude.{◌≡◌, List, IfOk, count_by, reverse};
ghost use Rattle.sr_audit.specs.Connections.{TellsConnections};
ghost use Rattle.sr_audit.specs.Counts.{is_switch, openings_in, opens};
ghost use Rattle.sr_law.specs.declared.line.Line.{Line as ALine};

use crate::connections::Connections;
use sr_law::{Line, opened_by};
use std::alloc::{AllocError, Global};

// Whether a line is the opening of a connection.
fn opens(connections: &Connections, line: &Line) -> bool
    ensures { (before : List ALine) → TellsConnections connections.now before → result ≡ opens before line.now }
{
    match line.key() {
        Some(key) => connections.opening(key).is_none() && opened_by(line, key).is_some(),
        None => false,
    }
}

/// How many connections these lines open: lines that send an opener to a server while its connection isn't open.
pub fn count_openings(alloc: Global, lines: &[Line]) -> Result<usize, AllocError>
    ensures { IfOk result (λ n. n ≡ openings_in (reverse lines.now)) }
{
    let mut connections = Connections::new(alloc);
    let mut count = 0;
    for line in lines {
        if opens(&connections, line) {
            count += 1;
        }
        connections.absorb(line)?;
    }
    Ok(count)
}

// Whether a line tells of a switch.
fn is_switch(line: &Line) -> bool
    ensures { result ≡ is_switch line.now }
{
    match *line {
        Line::Switched { .. } => true,
        _ => false,
    }
}

/// How many switches of virtual addresses to pools these lines tell of.
pub fn count_switches(lines: &[Line]) -> usize
    ensures { result ≡ count_by is_switch lines.now }
{
    lines.iter().filter(|line| is_switch(*line)).count()
}

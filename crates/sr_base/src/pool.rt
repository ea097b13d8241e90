ghost use Rattle.std.specs.Prelude.{◌≡◌, ℕ, ◌<◌, ◌≤◌, List, length, slice_index, vec_len, IfSome, IsSome, ◌↔◌};

use std::marker::Model;

/// The servers that share a virtual address: 1 to 255 server numbers, in order.
#[derive(Debug, Drop)]
pub struct Pool {
    servers: Vec<u32>,
}

impl Model for Pool {
    ghost Value = { List ℕ };

    ghost view = { λ p. p.servers.items };

    ghost invariant = { λ p. (1 ≤ vec_len p.servers) × (vec_len p.servers ≤ 255) };
}

impl Pool {
    /// The pool of these servers. None exactly where there are none, or more than 255.
    pub fn new(servers: Vec<u32>) -> Option<Pool>
        ensures when { IsSome result ↔ (1 ≤ vec_len servers) × (vec_len servers ≤ 255) }
        ensures servers { IfSome result (λ p. p ≡ servers.items) }
    {
        if 1 <= servers.len() && servers.len() <= 255 {
            Some(Pool { servers })
        } else {
            None
        }
    }

    /// How many servers it has, from 1 to 255.
    pub fn size(&self) -> u8
        ensures value { result ≡ length self.now }
        ensures some { 1 ≤ result }
    {
        self.servers.len() as u8
    }

    /// The server at this place, from 0.
    pub fn at(&self, i: u8) -> u32
        requires { i < length self.now }
        ensures { result ≡ slice_index self.now i }
    {
        self.servers[i as usize]
    }
}

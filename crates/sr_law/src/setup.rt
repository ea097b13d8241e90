use crate::Pools;
use sr_base::{Packet, Shape};
use std::marker::Model;

/// What a list of lines is judged for.
#[derive(Debug, Drop)]
pub struct Setup {
    /// The sizes of the tables and the times of the controller.
    pub shape: Shape,
    /// How many servers there are, numbered from 0.
    pub servers: u32,
    /// The pools of every virtual address.
    pub pools: Pools,
    /// The packets of the capture that are for a virtual address, in order.
    pub packets: Vec<Packet>,
}

impl Model for Setup {
    ghost use Rattle.sr_law.specs.Setup.{SetupView};

    ghost Value = { SetupView };

    ghost view = { λ s. record { shape = s.shape; servers = s.servers; pools = s.pools; packets = s.packets.items } };
}

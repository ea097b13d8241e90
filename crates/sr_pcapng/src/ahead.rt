ghost use Rattle.std.specs.Prelude.{◌≡◌, ℕ, ◌+◌, ◌<◌, ◌≤◌, List, length, take, drop, IfOk, IfErr, IsErr, OnOk};
ghost use Rattle.sr_pcapng.specs.Front.{most_captured};
ghost use Rattle.sr_io.specs.Faults.{Counts};
ghost use Rattle.sr_io.specs.Window.{IsFilled, Pending, passed_over};
ghost use Rattle.sr_pcapng.specs.Reading.{Fills, Passes};
ghost use Rattle.sr_pcapng.specs.declared.stop.Stop.TheVariants.{ReadFault};

use crate::stop::Stop;
use sr_io::{Source, Window};
use std::marker::Model;

/// What is still to be read of a capture: the bytes that were read ahead, and then those that the source has left. Fields are looked at in
/// place; only a packet's captured bytes are copied out of it.
#[derive(Debug, Drop)]
pub struct Ahead {
    window: Window,
}

impl Model for Ahead {
    ghost use Rattle.std.specs.Prelude.{◌+◌, ◌≤◌, length};
    ghost use Rattle.sr_io.specs.Window.{WindowView};
    ghost use Rattle.sr_pcapng.specs.Front.{most_captured};

    ghost Value = { WindowView };

    ghost view = { λ a. a.window };

    ghost invariant = { λ a. length a.window.used + most_captured ≤ a.window.room };
}

impl Ahead {
    /// What is to be read through a window.
    pub fn new(window: Window) -> Ahead
        requires { length window.used + most_captured ≤ window.room }
        ensures { result ≡ window }
    {
        Ahead { window }
    }

    /// Reads on until so many bytes are there, or all that are left. None of them is used.
    pub fn ready<S: Source>(&mut self, source: &mut S, size: usize) -> Result<(), Stop>
        requires { size ≤ most_captured }
        ensures pending { (xs : List ℕ) → Pending self.old (S.known source.old).left xs → Pending self.new (S.known source.new).left xs }
        ensures filled { OnOk result (IsFilled self.new size) }
        ensures error { IfErr result (λ why. why ≡ ReadFault) }
        ensures faults { Counts (IsErr result) (S.known source.old).faults (S.known source.new).faults }
    {
        if self.window.unread().len() < size {
            self.window.fill(source, size)?;
        }
        Ok(())
    }

    /// The next bytes, so many, or all that are there.
    pub fn front(&self, size: usize) -> &[u8]
        ensures { result.now ≡ take size self.now.unread }
    {
        let there = self.window.unread();
        &there[..size.min(there.len())]
    }

    /// Uses so many bytes, or all that are there.
    pub fn pass(&mut self, size: usize)
        ensures { self.new ≡ passed_over size self.old }
    {
        let n = size.min(self.window.unread().len());
        self.window.pass_over(n);
    }

    /// Reads so many bytes to the front of a buffer, or all that are left: how many there are.
    pub fn fill<S: Source>(
        &mut self,
        source: &mut S,
        into: &mut [u8],
        size: usize,
    ) -> Result<usize, Stop>
        requires fits { size ≤ length into.old }
        requires most { size ≤ most_captured }
        ensures bytes { (xs : List ℕ) → Pending self.old (S.known source.old).left xs
            → Fills result size xs into.new (Pending self.new (S.known source.new).left) }
        ensures within { IfOk result (λ n. n ≤ size) }
        ensures error { IfErr result (λ why. why ≡ ReadFault) }
        ensures faults { Counts (IsErr result) (S.known source.old).faults (S.known source.new).faults }
    {
        self.ready(source, size)?;
        let there = self.front(size);
        let got = there.len();
        into[..got].copy_from_slice(there);
        self.pass(size);
        Ok(got)
    }

    /// Passes over so many bytes, or all that are left.
    pub fn skip<S: Source>(&mut self, source: &mut S, size: u64) -> Result<(), Stop>
        ensures bytes { (xs : List ℕ) → Pending self.old (S.known source.old).left xs
            → OnOk result (Pending self.new (S.known source.new).left (drop size xs)) }
        ensures error { IfErr result (λ why. why ≡ ReadFault) }
        ensures faults { Counts (IsErr result) (S.known source.old).faults (S.known source.new).faults }
    {
        let mut at = 0;
        while at < size {
            let n = self.pass_some(source, size - at)?;
            if n == 0 {
                return Ok(());
            }
            at += n;
        }
        Ok(())
    }

    // Passes over some bytes, at most so many: how many. There are none only where none are left.
    fn pass_some<S: Source>(&mut self, source: &mut S, most: u64) -> Result<u64, Stop>
        requires { 0 < most }
        ensures bytes { (xs : List ℕ) → Pending self.old (S.known source.old).left xs
            → Passes result xs (Pending self.new (S.known source.new).left) }
        ensures within { IfOk result (λ n. n ≤ most) }
        ensures error { IfErr result (λ why. why ≡ ReadFault) }
        ensures faults { Counts (IsErr result) (S.known source.old).faults (S.known source.new).faults }
    {
        self.window.fill(source, 1)?;
        let n = most.min(self.window.unread().len() as u64);
        self.window.pass_over(n as usize);
        Ok(n)
    }
}

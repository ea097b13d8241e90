ghost use Rattle.std.specs.Prelude.{◌≡◌, ◌+◌, ◌-◌, ◌<◌, ◌≤◌, true, false, length, take, drop, slice_range, Ok, IsErr, IfOk, OnOk};
ghost use Rattle.std.specs.Option.{ForSome};
ghost use Rattle.sr_io.specs.Faults.{Counts};
ghost use Rattle.sr_io.specs.Source.{IsWithin, Takes};
ghost use Rattle.sr_io.specs.Window.{IsFilled, ReadsOn, new_window, passed, passed_over};
ghost use Rattle.sr_io.specs.declared.source.Got.TheVariants.{Failed};

use crate::{Got, ReadFault, Source};
use std::alloc::{AllocError, Global};
use std::marker::Model;

/// The bytes of a source that were read and aren't used yet. They lie one behind the other in a buffer, so that what is to be looked at as a
/// whole, as a line or a record, is looked at in place; and it stays there until the next bytes are used. The source is handed to each call,
/// and must be the same one each time.
#[derive(Debug, Drop)]
pub struct Window {
    buffer: Vec<u8>,
    start: usize,
    at: usize,
    end: usize,
    over: bool,
}

impl Model for Window {
    ghost use Rattle.std.specs.Prelude.{◌≤◌, slice_range, vec_len};
    ghost use Rattle.sr_io.specs.Window.{WindowView};

    ghost Value = { WindowView };

    ghost view = { λ w. record {
      used = slice_range w.buffer.items w.start w.at;
      unread = slice_range w.buffer.items w.at w.end;
      room = vec_len w.buffer;
      over = w.over;
    } };

    ghost invariant = { λ w. (w.start ≤ w.at) × (w.at ≤ w.end) × (w.end ≤ vec_len w.buffer) };
}

impl Window {
    /// Nothing was read, and there is room for so many bytes.
    pub fn new(alloc: Global, room: usize) -> Result<Window, AllocError>
        ensures { IfOk result (λ w. w ≡ new_window room) }
    {
        Ok(Window {
            buffer: vec![in alloc; 0; room]?,
            start: 0,
            at: 0,
            end: 0,
            over: false,
        })
    }

    /// The bytes that were used last.
    pub fn used(&self) -> &[u8]
        ensures { result.now ≡ self.now.used }
    {
        &self.buffer[self.start..self.at]
    }

    /// The bytes that aren't used yet.
    pub fn unread(&self) -> &[u8]
        ensures { result.now ≡ self.now.unread }
    {
        &self.buffer[self.at..self.end]
    }

    /// Uses so many bytes.
    pub fn pass(&mut self, n: usize)
        requires { n ≤ length self.old.unread }
        ensures { self.new ≡ passed n self.old }
    {
        self.start = self.at;
        self.at += n;
    }

    /// Uses so many bytes, and keeps none of them.
    pub fn pass_over(&mut self, n: usize)
        requires { n ≤ length self.old.unread }
        ensures { self.new ≡ passed_over n self.old }
    {
        self.at += n;
        self.start = self.at;
    }

    /// Reads on until so many bytes are there, or all that come.
    pub fn fill<S: Source>(&mut self, source: &mut S, least: usize) -> Result<(), ReadFault>
        requires { length self.old.used + least ≤ self.old.room }
        ensures reads { ReadsOn self.old (S.known source.old).left self.new (S.known source.new).left }
        ensures filled { OnOk result (IsFilled self.new least) }
        ensures faults { Counts (IsErr result) (S.known source.old).faults (S.known source.new).faults }
    {
        if self.over {
            return Ok(());
        }
        while self.unread().len() < least {
            if !self.read_more(source)? {
                return Ok(());
            }
        }
        Ok(())
    }

    // One more read: whether it gave bytes.
    fn read_more<S: Source>(&mut self, source: &mut S) -> Result<bool, ReadFault>
        requires { length self.old.used + length self.old.unread < self.old.room }
        ensures reads { ReadsOn self.old (S.known source.old).left self.new (S.known source.new).left }
        ensures more { result ≡ Ok true → length self.old.unread < length self.new.unread }
        ensures over { result ≡ Ok false → self.new.over ≡ true }
        ensures faults { Counts (IsErr result) (S.known source.old).faults (S.known source.new).faults }
    {
        let got = read_behind(source, &mut self.buffer, self.start, self.end);
        self.at -= self.start;
        self.end -= self.start;
        self.start = 0;
        match got {
            Got::Bytes(n) => {
                self.end += n;
                Ok(true)
            }
            Got::End => {
                self.over = true;
                Ok(false)
            }
            Got::Failed => Err(ReadFault),
        }
    }
}

// Moves a part of a buffer to its front, and reads once behind it.
fn read_behind<S: Source>(source: &mut S, buffer: &mut [u8], start: usize, end: usize) -> Got
    requires order { start ≤ end }
    requires within { end ≤ length buffer.old }
    requires room { end - start < length buffer.old }
    ensures within { IsWithin result (length buffer.new - (end - start)) }
    ensures front { take (end - start) buffer.new ≡ slice_range buffer.old start end }
    ensures bytes { ForSome (S.known source.old).left (λ xs. Takes result xs (drop (end - start) buffer.new) (S.known source.new).left) }
    ensures faults { Counts (result ≡ Failed) (S.known source.old).faults (S.known source.new).faults }
{
    to_front(buffer, start, end);
    source.read(&mut buffer[end - start..])
}

// Moves a part of a buffer to its front.
#[tactic(auto, using(crate::proofs::Windows::moved))]
fn to_front(buffer: &mut [u8], start: usize, end: usize)
    requires order { start ≤ end }
    requires within { end ≤ length buffer.old }
    ensures { take (end - start) buffer.new ≡ slice_range buffer.old start end }
{
    if start > 0 {
        buffer.copy_within(start..end, 0);
    }
}

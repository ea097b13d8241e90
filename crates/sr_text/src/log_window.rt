ghost use Rattle.std.specs.Prelude.{◌≡◌, ◌≤◌, length, IsErr, IfOk, OnOk};
ghost use Rattle.sr_io.specs.Faults.{Counts};
ghost use Rattle.sr_io.specs.Window.{IsFilled, ReadsOn, new_window, passed_over};

use crate::line_text::LINE_BYTES;
use sr_io::{ReadFault, Source, Window};
use std::alloc::{AllocError, Global};
use std::marker::Model;

/// How many bytes there is room for.
const ROOM: usize = 262_144;

/// The bytes of a log that were read and aren't used yet. Lines are read where they lie.
#[derive(Drop)]
pub(crate) struct LogWindow {
    window: Window,
}

impl Model for LogWindow {
    ghost use Rattle.std.specs.Prelude.{◌≡◌, []};
    ghost use Rattle.sr_io.specs.Window.{WindowView};

    ghost Value = { WindowView };

    ghost view = { λ w. w.window };

    ghost invariant = { λ w. (w.window.used ≡ []) × (w.window.room ≡ 262144) };
}

impl LogWindow {
    /// Nothing was read.
    pub(crate) fn new(alloc: Global) -> Result<LogWindow, AllocError>
        ensures { IfOk result (λ w. w ≡ new_window 262144) }
    {
        let window = Window::new(alloc, ROOM)?;
        Ok(LogWindow { window })
    }

    /// The bytes.
    pub(crate) fn unread(&self) -> &[u8]
        ensures { result.now ≡ self.now.unread }
    {
        self.window.unread()
    }

    /// Uses so many bytes.
    pub(crate) fn pass(&mut self, n: usize)
        requires { n ≤ length self.old.unread }
        ensures { self.new ≡ passed_over n self.old }
    {
        self.window.pass_over(n);
    }

    /// Reads on until all bytes of the next line are there.
    pub(crate) fn fill<S: Source>(&mut self, source: &mut S) -> Result<(), ReadFault>
        ensures reads { ReadsOn self.old (S.known source.old).left self.new (S.known source.new).left }
        ensures filled { OnOk result (IsFilled self.new 200) }
        ensures faults { Counts (IsErr result) (S.known source.old).faults (S.known source.new).faults }
    {
        self.window.fill(source, LINE_BYTES)
    }
}

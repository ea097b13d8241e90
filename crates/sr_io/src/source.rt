ghost use Rattle.std.specs.Prelude.{◌≡◌, ◌<◌, length};
ghost use Rattle.std.specs.Option.{ForSome};
ghost use Rattle.sr_io.specs.Faults.{Counts};
ghost use Rattle.sr_io.specs.Source.{SourceKnown, IsWithin, Takes};
ghost use Rattle.sr_io.specs.declared.source.Got.TheVariants.{Failed};

/// What a read gives.
#[derive(Clone, Copy, Debug, PartialEq, Eq)]
pub enum Got {
    /// So many bytes, at least one, at the front of the buffer.
    Bytes(usize),
    /// No byte is left.
    End,
    /// The device failed, and no byte was taken.
    Failed,
}

/// Bytes that come from outside, as a capture or a log, in pieces of the source's choice.
pub trait Source {
    /// The bytes that are left, where the source tells them, and how often it failed.
    ghost known: { Self → SourceKnown };

    /// Reads some bytes, at least one and no more than the buffer holds.
    fn read(&mut self, into: &mut [u8]) -> Got
        requires { 0 < length into.old }
        ensures within { IsWithin result (length into.new) }
        ensures bytes { ForSome (known self.old).left (λ xs. Takes result xs into.new (known self.new).left) }
        ensures faults { Counts (result ≡ Failed) (known self.old).faults (known self.new).faults };
}

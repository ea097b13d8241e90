ghost use Rattle.std.specs.Prelude.{ℕ};

/// A place that a pipe passes with each packet, once the packet's note is up. It answers nothing and decides nothing: a test can hold a
/// packet there.
pub trait Gate {
    /// The packet of this pipe that entered at this tick has passed. Only the gate says so, of what it let pass.
    ghost passed: { Self → ℕ → ℕ → Type 0 };

    /// The packet of this pipe that entered at this tick passes.
    fn pass(&self, pipe: u8, entered: u64)
        ensures { passed self.now pipe entered };
}

/// The gate that holds nobody.
#[derive(Clone, Copy, Debug, PartialEq, Eq)]
pub struct OpenGate;

impl Gate for OpenGate {
    ghost passed = { λ gate pipe entered. Unit {0} };

    fn pass(&self, _pipe: u8, _entered: u64) {}
}

// A source and a sink beside each other.
use ebs_world::{Failed, Sink, Source};

/// A connection: what comes in, and what goes out. The two sides are values of their own, so what is taken leaves alone
/// what was written, and whoever serves both lends each for itself.
#[derive(Drop)]
pub struct Conn<I, O> {
    pub input: I,
    pub output: O,
}

impl<I, O> Conn<I, O> {
    ghost use Rattle.std.specs.Prelude.{◌≡◌};

    pub fn new(input: I, output: O) -> Self
        ensures { result ≡ record { input = input; output = output } }
    {
        Conn { input, output }
    }
}

impl<I: Source, O> Source for Conn<I, O> {
    ghost inlet = { λ c. I.inlet c.input };

    fn take(&mut self, room: &mut [u8]) -> Result<usize, Failed> {
        self.input.take(room)
    }
}

impl<I, O: Sink> Sink for Conn<I, O> {
    ghost outlet = { λ c. O.outlet c.output };

    fn put(&mut self, piece: &[u8]) -> Result<(), Failed> {
        self.output.put(piece)
    }
}

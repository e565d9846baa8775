// What turns are taken at.

/// A value at which turns are taken, each of which leaves an item.
pub trait Subject<I> {
    ghost use Rattle.std.specs.Prelude.{List};
    ghost use Rattle.ebs_turns.specs.declared.line.Turn.{Turn};

    /// The last value is what the turns of the line made of the first.
    ghost follows: { Self → List (Turn I) → Self → Type 0 };
}

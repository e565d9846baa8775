// What is written falls into answers in one way.
ghost use Rattle.std.specs.Prelude.{List};
ghost use Rattle.ebs_exchanges.specs.Exchanges.{Exchange, FallsInOneWay};

use ebs_print::answers_split;

/// What is written falls into answers in one way.
pub fn answers_fall()
    ensures { (exchanges : List Exchange) → FallsInOneWay exchanges }
{
    answers_split();
}

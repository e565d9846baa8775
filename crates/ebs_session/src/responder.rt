// What answers messages.
ghost use Rattle.ebs_model.specs.declared.keys.Moment.{Moment};
ghost use Rattle.ebs_model.specs.declared.answer.Answer.{Answer};
ghost use Rattle.ebs_http.specs.declared.message.Message.{Message};

use ebs_http::Message;
use ebs_model::{Answer, Moment};

/// What answers messages, over a world that it works on: a store over its disk, or a reader of calls over a pass to a
/// shared store.
pub trait Responder<W> {
    /// What a reply may be, from one state of both to the next.
    ghost replies: { Self → W → Message → Moment → Answer → Self → W → Type 0 };

    /// What holds of both before a reply and after it.
    ghost ready: { Self → W → Type 0 };

    fn reply(&mut self, world: &mut W, message: Message, reading: Moment) -> Answer
        requires ready { ready self.old world.old }
        ensures ready { ready self.new world.new }
        ensures replies { replies self.old world.old message reading result self.new world.new };

    /// Comes behind each answer that was written whole.
    fn answered(&self) {}
}

// Messages and their answers.
ghost use Rattle.std.specs.Prelude.{◌≡◌, ◌≤◌, ◌++◌, length, Err, OnOk, OnErr};
ghost use Rattle.std.specs.Io.KnownBytes.{Appends};
ghost use Rattle.ebs_world.specs.Ends.{AppendsFront, HasCause};
ghost use Rattle.ebs_model.specs.Quotas.{Rose};
ghost use Rattle.ebs_print.specs.Printed.{text_of};
ghost use Rattle.ebs_session.specs.inner.Progress.{Put, Answered, Served, Rests, end_of};

use crate::end::End;
use crate::responder::Responder;
use ebs_http::{Framer, Message, Step, framing};
use ebs_model::Answer;
use ebs_rest::{memory_answer, write_answer};
use ebs_world::{Clock, Failed, Sink};
use std::alloc::{AllocError, Global};

/// Answers the whole messages that wait, of so many bytes that were taken. An `Err` says how the session ends.
pub fn answer_waiting<W, R: Responder<W>, O: Sink, K: Clock>(
    alloc: Global,
    taken: u64,
    responder: &mut R,
    world: &mut W,
    framer: &mut Framer,
    output: &mut O,
    clock: &mut K,
) -> Result<(), End>
    requires ready { R.ready responder.old world.old }
    requires taken { length framer.old.bytes ≤ taken }
    ensures ready { R.ready responder.new world.new }
    ensures served { Served R.replies (end_of result) framer.old.bytes framer.new.bytes responder.old world.old responder.new world.new
        (O.outlet output.old).written (O.outlet output.new).written (K.ticks clock.old).readings (K.ticks clock.new).readings }
    ensures rest { Rests taken result framer.new.bytes }
    ensures fault { result ≡ Err End.OutputFailed → Rose (O.outlet output.old).faults (O.outlet output.new).faults }
    ensures quiet { (result ≡ Err End.OutputFailed → ⊥) → (O.outlet output.new).faults ≡ (O.outlet output.old).faults }
{
    framing();
    'message: while framer.rest() > 0 {
        match framer.next() {
            Step::Message(message) => answer(alloc, responder, world, message, output, clock)?,
            Step::More => return Ok(()),
            Step::Bad(_) => return Err(End::Bad(taken - framer.rest())),
            Step::Memory => return Err(End::Memory),
        }
    }
    Ok(())
}

/// Answers a message at the clock's next reading, and tells the responder once that is written.
fn answer<W, R: Responder<W>, O: Sink, K: Clock>(
    alloc: Global,
    responder: &mut R,
    world: &mut W,
    message: Message,
    output: &mut O,
    clock: &mut K,
) -> Result<(), End>
    requires ready { R.ready responder.old world.old }
    ensures ready { R.ready responder.new world.new }
    ensures answered { Answered R.replies result message responder.old world.old responder.new world.new
        (O.outlet output.old).written (O.outlet output.new).written (K.ticks clock.old).readings (K.ticks clock.new).readings }
    ensures fault { result ≡ Err End.OutputFailed → Rose (O.outlet output.old).faults (O.outlet output.new).faults }
    ensures quiet { (result ≡ Err End.OutputFailed → ⊥) → (O.outlet output.new).faults ≡ (O.outlet output.old).faults }
{
    let reading = clock.now();
    let answer = responder.reply(world, message, reading);
    put_answer(alloc, &answer, output)?;
    responder.answered();
    Ok(())
}

/// Puts the text of an answer. That of want of memory takes no memory.
fn put_answer<O: Sink>(alloc: Global, answer: &Answer, output: &mut O) -> Result<(), End>
    ensures put { Put result (O.outlet output.old).written (O.outlet output.new).written (text_of answer.now) }
    ensures fault { result ≡ Err End.OutputFailed → Rose (O.outlet output.old).faults (O.outlet output.new).faults }
    ensures quiet { (result ≡ Err End.OutputFailed → ⊥) → (O.outlet output.new).faults ≡ (O.outlet output.old).faults }
    ensures told { answer.now ≡ Answer.Memory → result ≡ Err End.Memory → ⊥ }
{
    let put = match answer {
        Answer::Memory => output.put(memory_answer()),
        _ => match write_answer(alloc, answer) {
            Ok(printed) => put_both(printed.text.as_slice(), printed.block, output),
            Err(AllocError) => return Err(End::Memory),
        },
    };
    match put {
        Ok(()) => Ok(()),
        Err(Failed) => Err(End::OutputFailed),
    }
}

/// Puts a text, and the block behind it if there is one.
fn put_both<O: Sink>(text: &[u8], block: &[u8], output: &mut O) -> Result<(), Failed>
    ensures ok { OnOk result (Appends (O.outlet output.old).written (O.outlet output.new).written (text.now ++ block.now)) }
    ensures err { OnErr result (AppendsFront (O.outlet output.old).written (O.outlet output.new).written (text.now ++ block.now)) }
    ensures cause { HasCause (O.outlet output.old).faults (O.outlet output.new).faults result }
    ensures quiet { OnOk result ((O.outlet output.new).faults ≡ (O.outlet output.old).faults) }
{
    output.put(text)?;
    if block.is_empty() {
        return Ok(());
    }
    output.put(block)
}

// Makes a module and does every call in order.
ghost use Rattle.std.specs.Prelude.{◌≡◌, map, length, IfOk};
ghost use Rattle.module.specs.State.{new_state};
ghost use Rattle.runs.specs.Calls.{asked, told, call_state, call_said, call_told, said_by, run_state, run_told};
ghost use Rattle.runs.specs.History.{history};
ghost use Rattle.runs.specs.Law.{Safe, Tells};

use crate::call::{Answer, Call, Outcome, Reply};
use module::Module;
use stage::Stage;
use std::alloc::{AllocError, Global};
use values::Model;

fn answer<S: Stage>(module: &mut Module<S>, call: Call) -> Answer
    ensures state { «module».new ≡ call_state S.REGULATES «module».old (asked call) }
    ensures answer { said_by result ≡ call_said «module».old (asked call) }
{
    match call {
        Call::Read { offset } => Answer::Read(module.read(offset)),
        Call::Write { offset, word } => Answer::Write(module.write(offset, word)),
        Call::Block { accesses } => {
            let mut records = accesses;
            let end = module.block(records.as_mut_slice());
            Answer::Block { end, records }
        }
        Call::Round {
            conditions,
            readings,
        } => Answer::Round(module.round(&conditions, readings.as_slice())),
    }
}

fn reply<S: Stage>(module: &mut Module<S>, call: Call) -> Reply
    ensures state { «module».new ≡ call_state S.REGULATES «module».old (asked call) }
    ensures reply { told result ≡ call_told S.REGULATES «module».old (asked call) }
{
    let answer = answer(module, call);
    Reply {
        answer,
        levels: module.levels(),
    }
}

// Want of memory is refused before the first call. Those who pass the answers on say the same over their own arguments.
pub fn run<S: Stage + Drop>(
    heap: Global,
    stage: S,
    model: Model,
    calls: Vec<Call>,
) -> Result<Outcome<S>, AllocError>
    ensures state { IfOk result (λ x. x.«module» ≡ run_state S.REGULATES (new_state model (length (S.levels stage))) (map asked calls.items)) }
    ensures replies { IfOk result (λ x. map told x.replies.items ≡ run_told S.REGULATES (new_state model (length (S.levels stage))) (map asked calls.items)) }
    ensures history { IfOk result (λ x. Tells S.REGULATES model (length (S.levels stage)) (map asked calls.items) (map told x.replies.items)) }
    ensures safe { IfOk result (λ x. Safe S.REGULATES model (length (S.levels stage)) (history (map asked calls.items) (map told x.replies.items))) }
{
    let mut replies = Vec::with_capacity(heap, calls.len())?;
    let mut module = Module::new(stage, model);
    for call in calls {
        replies.push_reserved(reply(&mut module, call));
    }
    Ok(Outcome { module, replies })
}

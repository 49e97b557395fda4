// The run of a script, and what is listed of it.
ghost use Rattle.std.specs.Prelude.{◌≡◌, ◌≤◌, map, length, IfOk};
ghost use Rattle.stage.specs.Levels.{taken};
ghost use Rattle.module.specs.State.{new_state};
ghost use Rattle.runs.specs.Calls.{asked, told, said_by, run_told};
ghost use Rattle.script.specs.Listing.{echo_of, regulates, done_by, done_count};

use crate::command::{Setup, StageKind};
use crate::reader::Script;
use runs::{Answer, Call, Outcome, Reply, run};
use stage::{DirectStage, DistributorStage, Stage};
use std::alloc::{AllocError, Global};
use values::Model;

// What is listed of a call besides its answer.
#[derive(Clone, Copy, PartialEq, Eq, Debug)]
pub enum Echo {
    Read { offset: u16 },
    Write { offset: u16, word: u16 },
    Block,
    Round { readings: usize },
}

// The echo of each call and its reply stand in two lists: a list of both would be a copy of the replies, which `run` answers.
#[derive(Drop)]
pub struct Listing {
    pub setup: Setup,
    pub echoes: Vec<Echo>,
    pub replies: Vec<Reply>,
}

// A call, with what it was answered.
#[derive(Clone, Copy, Debug)]
pub struct Entry<'a> {
    pub echo: Echo,
    pub reply: &'a Reply,
}

impl From<&Call> for Echo {
    ghost from_gives = { λ call r. r ≡ echo_of call.now };

    fn from(call: &Call) -> Echo {
        match call {
            Call::Read { offset } => Echo::Read { offset: *offset },
            Call::Write { offset, word } => Echo::Write {
                offset: *offset,
                word: *word,
            },
            Call::Block { .. } => Echo::Block,
            Call::Round { readings, .. } => Echo::Round {
                readings: readings.len(),
            },
        }
    }
}

fn echoes_of(heap: Global, calls: &[Call]) -> Result<Vec<Echo>, AllocError>
    ensures { IfOk result (λ v. v.items ≡ map echo_of calls.now) }
{
    calls.iter().map(Echo::from).collect(heap)
}

// The answers of a run stand in the contracts of `run`, this, `replies_of` and `perform`, each over its own arguments.
fn replies_over<S: Stage + Drop>(
    heap: Global,
    stage: S,
    model: Model,
    calls: Vec<Call>,
) -> Result<Vec<Reply>, AllocError>
    ensures { IfOk result (λ v. map told v.items ≡ run_told S.REGULATES (new_state model (length (S.levels stage))) (map asked calls.items)) }
{
    let Outcome { module: _, replies } = run(heap, stage, model, calls)?;
    Ok(replies)
}

fn replies_of(heap: Global, setup: Setup, calls: Vec<Call>) -> Result<Vec<Reply>, AllocError>
    ensures { IfOk result (λ v. map told v.items ≡ run_told (regulates setup.stage) (new_state setup.model (taken setup.count)) (map asked calls.items)) }
{
    match setup.stage {
        StageKind::Direct => replies_over(heap, DirectStage::new(setup.count), setup.model, calls),
        StageKind::Distributor => {
            replies_over(heap, DistributorStage::new(setup.count), setup.model, calls)
        }
    }
}

// Runs the calls of a script on its module. After the first call no memory is asked for.
pub fn perform(heap: Global, script: Script) -> Result<Listing, AllocError>
    ensures setup { IfOk result (λ x. x.setup ≡ script.setup) }
    ensures echoes { IfOk result (λ x. x.echoes.items ≡ map echo_of script.calls.items) }
    ensures replies { IfOk result (λ x. map told x.replies.items ≡ run_told (regulates script.setup.stage) (new_state script.setup.model (taken script.setup.count)) (map asked script.calls.items)) }
{
    let Script { setup, calls } = script;
    let echoes = echoes_of(heap, calls.as_slice())?;
    let replies = replies_of(heap, setup, calls)?;
    Ok(Listing {
        setup,
        echoes,
        replies,
    })
}

// Whether the call was done; a block is done if all of its accesses are.
fn is_done(answer: &Answer) -> bool
    ensures { result ≡ done_by (said_by answer.now) }
{
    match answer {
        Answer::Read(result) => result.is_ok(),
        Answer::Write(result) | Answer::Round(result) => result.is_ok(),
        Answer::Block { end, .. } => end.is_ok(),
    }
}

// How many of the calls were done.
pub(crate) fn done_count(replies: &[Reply]) -> usize
    ensures count { result ≡ done_count replies.now }
    ensures bound { result ≤ length replies.now }
{
    replies
        .iter()
        .filter(|reply| is_done(&reply.answer))
        .count()
}

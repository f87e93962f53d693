ghost use Rattle.std.specs.Prelude.{◌≡◌, All, IfOk, OnOk, false};
ghost use Rattle.plain_text.specs.Packets.{IsShort};
ghost use Rattle.run_writes.specs.Replies.{packets_in};
ghost use Rattle.chain_world.specs.Chain.{NamesSystem};
ghost use Rattle.chain_command.specs.Running.{ComesTo, IsSomewhere};

use box_program::Program;
use chain_box::{Chain, Passed, Reply, Stop};
use chain_world::ChainEvent;
use plain_text::{Limit, NoMemory};

/// What an event came to, and what each system released.
#[derive(Drop)]
pub struct Performed {
    /// Its reply, or the limit at which it stopped. The chain is stopped then.
    pub reply: Result<Reply, Limit>,
    /// What was released, in order of release. Where it stopped at a limit: what was released before.
    pub passed: Passed,
}

/// Performs an event of a chain, and takes what was released.
pub fn perform<P: Program, Q: Program>(
    chain: &mut Chain<P, Q>,
    event: &ChainEvent,
) -> Result<Performed, NoMemory>
    requires runs { chain.old.stopped ≡ false }
    requires which { NamesSystem event.now }
    ensures comes { IfOk result (λ performed. ComesTo P.meaning Q.meaning event.now
        performed.reply (packets_in performed.passed.middle)
        (packets_in performed.passed.released) chain.old chain.new) }
    ensures short { IsSomewhere P.meaning Q.meaning chain.old → IfOk result (λ performed.
        All IsShort (packets_in performed.passed.middle)
        × All IsShort (packets_in performed.passed.released)) }
    ensures goes_on { IfOk result (λ performed.
        OnOk performed.reply (chain.new.stopped ≡ false)) }
{
    match chain.on(event) {
        Ok(reply) => Ok(Performed {
            reply: Ok(reply),
            passed: chain.take_released(),
        }),
        Err(Stop::Limit(limit)) => Ok(Performed {
            reply: Err(limit),
            passed: chain.take_released(),
        }),
        Err(Stop::NoMemory) => Err(NoMemory),
    }
}

// Calls as values, one by one and a whole list of them.

ghost use Rattle.std.specs.Prelude.{◌≡◌, IfOk};
ghost use Rattle.session.specs.Replies.{call_of, reply_of};
ghost use Rattle.session.specs.LedBy.{Continues, Plays};

use crate::{Call, Refusal, Reply, Session};
use logic::Logic;
use std::alloc::{AllocError, Global};

impl<L: Logic + Drop> Session<L> {
    // Makes the call, and gives the reply to it.
    pub fn call(&mut self, call: Call) -> Result<Reply, Refusal>
        ensures { Continues L.Logic self.old (call_of call.entry) (reply_of result) self.new }
    {
        match call {
            Call::Post(literals) => self.post(literals)?,
            Call::Open => self.open()?,
            Call::Close => self.close()?,
            Call::Ask(budget) => {
                let (word, trials) = self.ask(budget);
                return Ok(Reply::Answered(word, trials));
            }
            Call::Choice(k) => {
                let (left, right) = self.choice(k)?;
                return Ok(Reply::Chosen(left, right));
            }
        }
        Ok(Reply::Granted)
    }
}

// Begins a session on the logic and makes the calls, one by one. The replies are those of a run over the logic's theory:
// each is the one that the definitions give for the calls up to it, and the law of the session holds after each.
pub fn play<L: Logic + Drop>(
    heap: Global,
    logic: L,
    calls: &[Call],
) -> Result<(Session<L>, Vec<Result<Reply, Refusal>>), AllocError>
    ensures { L.Logic.lawful logic → IfOk result (λ p. Plays L.Logic logic calls.now p.0 p.1.items) }
{
    let mut replies = Vec::with_capacity(heap, calls.len())?;
    let mut session = Session::new(heap, logic)?;
    for call in calls {
        let reply = session.call(*call);
        replies.push_reserved(reply);
    }
    Ok((session, replies))
}

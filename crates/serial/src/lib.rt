// A tick with a line: the line in the receive buffer is the tick's request, and its reply goes into the caller's reply buffer.
#![tactic(auto)]

ghost use Rattle.std.specs.Prelude.{◌≡◌};
ghost use Rattle.outline.specs.Tick.{tick_of, unasked_of};
ghost use Rattle.outline.specs.Numbers.{told_number};
ghost use Rattle.outline.specs.Answers.{line_due};
ghost use Rattle.outline.specs.Replies.{line_ticked, line_tick_of, reply_buffer};

use replies::ShortBuffer;
use replies::due::{reply_due, request_of, told_of};
use types::lines::{LineRefusal, LineTick};
use types::machine::{Input, State};
use types::settings::Settings;

// A tick without a request, and what its line is told: nothing is replied.
fn silent_tick(
    told: Result<(), LineRefusal>,
    s: Settings,
    st: State,
    count: i32,
    contact: bool,
) -> LineTick
    ensures { result ≡ line_ticked told 0 (tick_of s st (unasked_of count contact)) }
{
    let t = controller::unasked::inlined_tick(s, st, count, contact);
    LineTick {
        told,
        length: 0,
        answer: t.answer,
        state: t.state,
    }
}

// A tick that no line comes with.
pub fn lineless_tick(s: Settings, st: State, count: i32, contact: bool) -> LineTick
    ensures { result ≡ line_ticked (Ok tt) 0 (tick_of s st (unasked_of count contact)) }
{
    silent_tick(Ok(()), s, st, count, contact)
}

// The tick is run with what the line asks for, and its reply is made from what it answers. A read asks for nothing, so that what it shows
// of the state is what stood before the tick. Where the reply does not fit, the tick is run anew as one without a request.
pub fn line_tick(
    s: Settings,
    st: State,
    count: i32,
    contact: bool,
    receive: &[u8],
    reply: &mut [u8],
) -> LineTick
    ensures answer { result ≡ line_tick_of s st count contact receive.now reply.old }
    ensures bytes { reply.new ≡ reply_buffer s st count contact receive.now reply.old }
    ensures number { told_number result.told ≡ line_due s st count contact receive.now reply.old }
{
    let command = commands::command_of(receive, s.address);
    let request = request_of(command);
    let t = controller::tick(
        s,
        st,
        Input {
            count,
            contact,
            request,
        },
    );
    let due = reply_due(command, st, t.answer.reading, t.answer.outcome);
    match replies::write_reply(reply, s.address, due) {
        Ok(length) => LineTick {
            told: told_of(command, t.answer.outcome),
            length,
            answer: t.answer,
            state: t.state,
        },
        Err(ShortBuffer) => silent_tick(Err(LineRefusal::ShortBuffer), s, st, count, contact),
    }
}

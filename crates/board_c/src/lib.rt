// The calls of board/pressgully.h as C has them: each is board's call of that name, exported with its promise. A library that other crates
// stand on exports nothing to C, so they stand here. A slice is a pointer and a length.
#![tactic(auto)]

ghost use Rattle.std.specs.Prelude.{◌≡◌, length};
ghost use Rattle.board.specs.Board.{open_answer, open_image, grow_answer, grow_image};
ghost use Rattle.board.specs.Board.{tick_answer, tick_image, tick_buffer, line_answer, line_image, line_reply, line_buffer};
ghost use Rattle.board.specs.Board.{block_answer, block_image};

// The opening: fills the state image. What its bytes were is not asked.
#[unsafe(no_mangle)]
pub extern "C" fn pressgully_open(settings: &[u8], state: &mut [u8]) -> u32
    ensures told { result ≡ open_answer settings.now (length state.old) }
    ensures image { state.new ≡ open_image settings.now state.old }
{
    board::pressgully_open(settings, state)
}

// Makes the present image of an earlier one. What the bytes of the state's buffer were is not asked.
#[unsafe(no_mangle)]
pub extern "C" fn pressgully_grow(settings: &[u8], earlier: &[u8], state: &mut [u8]) -> u32
    ensures told { result ≡ grow_answer settings.now earlier.now (length state.old) }
    ensures image { state.new ≡ grow_image settings.now earlier.now state.old }
{
    board::pressgully_grow(settings, earlier, state)
}

// One tick, asked by a number.
#[unsafe(no_mangle)]
pub extern "C" fn pressgully_tick(
    settings: &[u8],
    state: &mut [u8],
    count: i32,
    contact: bool,
    request: u32,
    points: &[u32],
    answer: &mut [u8],
) -> u32
    ensures told { result ≡ tick_answer settings.now state.old count contact request points.now answer.old }
    ensures image { state.new
        ≡ tick_image settings.now state.old count contact request points.now answer.old }
    ensures outputs { answer.new
        ≡ tick_buffer settings.now state.old count contact request points.now answer.old }
{
    board::pressgully_tick(settings, state, count, contact, request, points, answer)
}

// One tick with a receive buffer, whose line it obeys. The reply's length stands in the answer.
#[unsafe(no_mangle)]
pub extern "C" fn pressgully_line(
    settings: &[u8],
    state: &mut [u8],
    count: i32,
    contact: bool,
    receive: &[u8],
    reply: &mut [u8],
    answer: &mut [u8],
) -> u32
    ensures told { result ≡ line_answer settings.now state.old count contact receive.now reply.old
        answer.old }
    ensures image { state.new
        ≡ line_image settings.now state.old count contact receive.now reply.old
        answer.old }
    ensures replied { reply.new
        ≡ line_reply settings.now state.old count contact receive.now reply.old
        answer.old }
    ensures outputs { answer.new
        ≡ line_buffer settings.now state.old count contact receive.now reply.old
        answer.old }
{
    board::pressgully_line(settings, state, count, contact, receive, reply, answer)
}

// A block of counts, one tick each, with one contact and no requests.
#[unsafe(no_mangle)]
pub extern "C" fn pressgully_block(
    settings: &[u8],
    state: &mut [u8],
    counts: &[i32],
    contact: bool,
) -> u32
    ensures told { result ≡ block_answer settings.now state.old counts.now contact }
    ensures image { state.new ≡ block_image settings.now state.old counts.now contact }
{
    board::pressgully_block(settings, state, counts, contact)
}

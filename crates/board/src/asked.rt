// What a tick is asked by a number.
ghost use Rattle.std.specs.Prelude.{◌≡◌, cond, eqb, length, Ok, Err};
ghost use Rattle.board.specs.AskedBy.{is_request, point_count, points_of, request_by, is_known, request_in};

use types::requests::Request;
use types::stages::Setpoints;

// A number above 12, or that of a write without its seven numbers.
#[derive(Clone, Copy)]
pub(crate) struct NoRequest;

// The numbers of a write: F, FF, P, OP, over, under, near zero.
const POINT_COUNT: usize = 7;

#[tactic(auto, unfolding(crate::specs::AskedBy::points_of))]
fn points_of(points: &[u32]) -> Result<Setpoints, NoRequest>
    ensures { result ≡ cond (eqb (length points.now) point_count) (Ok (points_of points.now)) (Err (record {})) }
{
    if points.len() != POINT_COUNT {
        return Err(NoRequest);
    }
    Ok(Setpoints {
        target: points[0],
        fall: points[1],
        preliminary: points[2],
        optional: points[3],
        over: points[4],
        under: points[5],
        near: points[6],
    })
}

// 0 asks nothing. A number that is no request asks nothing either, and is told so.
#[tactic(auto, unfolding(crate::specs::AskedBy::is_request, crate::specs::AskedBy::request_by))]
pub(crate) fn asked(n: u32, points: &[u32]) -> Result<Option<Request>, NoRequest>
    ensures known { is_known result ≡ is_request n points.now }
    ensures request { request_in result ≡ request_by n points.now }
{
    let request = match n {
        0 => return Ok(None),
        1 => Request::Zero,
        2 => Request::Tare,
        3 => Request::TareClear,
        4 => Request::Start,
        5 => Request::Stop,
        6 => Request::Set(points_of(points)?),
        7 => Request::TotalClear,
        8 => Request::Undo,
        9 => Request::ShowGross,
        10 => Request::ShowNet,
        11 => Request::DayClose,
        12 => Request::Discharge,
        _ => return Err(NoRequest),
    };
    Ok(Some(request))
}

// What is printed: the opening's answer, a line for each tick with its outputs and the state after it, and the line that could not be
// read. No text is promised, only that it ends, whatever it is given, and fails only where a write does; it is held to stored outputs and
// to the peer's.
//
// A key and its value are a call each: a key has a known length, and is then copied as a few words.
use crate::text::Output;
use logs::pieces::part;
use numbers::{error_number, stage_number, told_number};
use std::io;
use types::analog::Analog;
use types::daybook::Book;
use types::lines::LineTick;
use types::machine::{Answer, Reading, State};
use types::stages::{Gates, Judgement, SequenceError, Setpoints, Stage, Totals};
use types::weight::Weighing;

// A dash is a shut gate.
fn gate(open: bool, letter: u8) -> u8 {
    if open { letter } else { b'-' }
}

impl<'a> Output<'a> {
    // The settings are accepted.
    pub(crate) fn opened(self) -> Self {
        self.put(b"answer=0\n")
    }

    // The line with this number can't be read.
    pub(crate) fn refused(self, rt: &impl Print, number: u64) -> io::Result<Self> {
        let out = self.with_room(rt)?;
        Ok(out.put(b"refused=").number(number).byte(b'\n'))
    }

    fn reading(self, x: Reading) -> Self {
        self.put(b" good=")
            .flag(x.good)
            .put(b" gross=")
            .signed(i64::from(x.gross))
            .put(b" net=")
            .signed(i64::from(x.net))
            .put(b" overload=")
            .flag(x.overload)
            .put(b" stable=")
            .flag(x.stable)
    }

    // A stage has two digits.
    fn stage(self, stage: Stage) -> Self {
        self.put(b" stage=")
            .digits::<10>(u64::from(stage_number(stage)), 2)
    }

    // Four characters.
    fn gates(self, g: Gates) -> Self {
        self.put(b" gates=").put(&[
            gate(g.large, b'L'),
            gate(g.medium, b'M'),
            gate(g.small, b'S'),
            gate(g.discharge, b'D'),
        ])
    }

    fn judgement(self, j: Judgement) -> Self {
        match j {
            Judgement::None => self.put(b" judgement=none"),
            Judgement::Ok => self.put(b" judgement=ok"),
            Judgement::Over => self.put(b" judgement=over"),
            Judgement::Under => self.put(b" judgement=under"),
        }
    }

    fn signals(self, error: SequenceError, near: bool, full: bool) -> Self {
        self.put(b" error=")
            .number(u64::from(error_number(error)))
            .put(b" nearzero=")
            .flag(near)
            .put(b" full=")
            .flag(full)
    }

    // No value of the analog board is NaN; its bits are shown.
    fn float(self, x: f64) -> Self {
        if x.is_nan() {
            return self.byte(b'-');
        }
        self.digits::<16>(x.to_bits(), 16)
    }

    fn analog(self, a: Option<Analog>) -> Self {
        let out = self.put(b" analog=");
        match a {
            None => out.byte(b'-'),
            Some(Analog::Current(x) | Analog::Voltage(x)) => out.float(x),
        }
    }

    fn outputs(self, a: Answer) -> Self {
        self.reading(a.reading)
            .stage(a.stage)
            .gates(a.gates)
            .judgement(a.judgement)
            .signals(a.error, a.near, a.full)
            .analog(a.analog)
    }

    fn weighing(self, w: Weighing) -> Self {
        self.put(b" zero=")
            .signed(i64::from(w.zero))
            .put(b" tracked=")
            .signed(i64::from(w.tracked))
            .put(b" tare=")
            .signed(i64::from(w.tare))
    }

    fn book(self, b: Book) -> Self {
        self.put(b" opening=")
            .signed(i64::from(b.opening))
            .put(b" refilled=")
            .signed(b.refilled)
            .put(b" used=")
            .signed(b.used)
            .put(b" unbooked=")
            .signed(b.unbooked)
            .put(b" last=")
            .signed(i64::from(b.last))
    }

    fn totals(self, t: Totals) -> Self {
        self.put(b" total=")
            .number(t.total)
            .put(b" batches=")
            .number(u64::from(t.count))
    }

    fn next(self, n: u32) -> Self {
        self.byte(b',').number(u64::from(n))
    }

    // Number by number: a struct of them would be copied first, from the gap before it on, by reads that wait for the writes of the tick
    // (docs/COST.md).
    fn points(
        self,
        target: u32,
        fall: u32,
        preliminary: u32,
        optional: u32,
        over: u32,
        under: u32,
        near: u32,
    ) -> Self {
        self.number(u64::from(target))
            .next(fall)
            .next(preliminary)
            .next(optional)
            .next(over)
            .next(under)
            .next(near)
    }

    // Those in use, then those waiting: a dash where there are none.
    fn setpoints(self, p: Setpoints, waiting: Option<Setpoints>) -> Self {
        let out = self
            .put(b" setpoints=")
            .points(
                p.target,
                p.fall,
                p.preliminary,
                p.optional,
                p.over,
                p.under,
                p.near,
            )
            .put(b" waiting=");
        match waiting {
            None => out.byte(b'-'),
            Some(n) => out.points(
                n.target,
                n.fall,
                n.preliminary,
                n.optional,
                n.over,
                n.under,
                n.near,
            ),
        }
    }

    fn state(self, st: State) -> Self {
        self.weighing(st.weighing)
            .book(st.book)
            .totals(st.totals)
            .setpoints(st.setpoints, st.waiting)
            .byte(b'\n')
    }

    // The output so far is written out where a line may not find room behind it. The reply's bytes are the first of its buffer.
    pub(crate) fn tick(self, rt: &impl Print, t: LineTick, reply: &[u8]) -> io::Result<Self> {
        let out = self.with_room(rt)?;
        Ok(
            out.put(b"answer=")
                .number(u64::from(told_number(t.told)))
                .put(b" reply=")
                .hex(part(reply, 0, t.length))
                .outputs(t.answer)
                .state(t.state),
        )
    }
}

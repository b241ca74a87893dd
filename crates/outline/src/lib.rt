// The paper: the definitions over the types of the machine stand in specs/, a file for each section of the outline.
// Nothing here does a tick's work; the crates above do, and promise that they do what the definitions say.
#![tactic(auto)]

ghost use Rattle.outline.specs.Figures.{Starred, Runs, Table};
ghost use Rattle.outline.specs.Worked.{Batches, Letters, Lines};
ghost use Rattle.outline.specs.LogFigures.{Logs, Inputs, Tickets};
ghost use Rattle.outline.specs.Rules.{Weighed, Refused, Staged, Booked};
ghost use Rattle.outline.specs.Finishes.{Finished};
ghost use Rattle.outline.specs.LineFigures.{Received, Spoken, Logged};
ghost use Rattle.outline.specs.CommandFigures.{Commanded};
ghost use Rattle.outline.specs.OpeningFigures.{Opened};
ghost use Rattle.outline.specs.RequestFigures.{Asked};
ghost use Rattle.outline.specs.StageFigures.{Sequenced};
ghost use Rattle.outline.specs.WeightFigures.{Tracked};
ghost use Rattle.outline.specs.OutputFigures.{Displayed};
ghost use Rattle.outline.specs.DischargeFigures.{Discharged, Requested};
ghost use Rattle.outline.specs.RefillFigures.{Refills};
ghost use Rattle.outline.specs.WaitingFigures.{Waited};
ghost use Rattle.outline.specs.ConnectedFigures.{WhileConnected};
ghost use Rattle.outline.specs.Owed.{OpeningLaw, RawLaw, SetpointLaw, TimedLaw};
ghost use Rattle.outline.specs.AnalogOwed.{ScaleLaw, AnalogLaws};
ghost use Rattle.outline.specs.EveryLine.{ReplyBounded, BytesStay, AnsweredInOrder, RefusedLines, ReadBackOnLine, GatesShutOnLine};
ghost use Rattle.outline.specs.EveryLine.{TicketOnLine, NeverTogetherOnLine, ZeroWhileConnectedOnLine};
ghost use Rattle.outline.specs.StaysTrue.{Balance, SumsOfHistory, NothingElse, ZeroInForce, TotalOfBatches, GatesShut, InRange};
ghost use Rattle.outline.specs.StaysTrue.{Refusals, ReadBack, Ticket, BlocksAreRuns, LinesAreRuns, LogsAreRuns, NeverTogether};
ghost use Rattle.outline.specs.StaysTrue.{DischargeIsNoBatch, FromRange};
ghost use Rattle.outline.specs.StaysTrue.{WaitingOfWrites, InUseStays, LatestOfWrites, WaitingAside, WriteAside};
ghost use Rattle.outline.specs.StaysTrue.{ZeroWhileConnected, ZeroThroughRefill, ToZeroOnly, EarlierKeeps};

// The figures of the outline and the laws that the definitions owe. It does nothing: it stands here so that the check's list names
// them, and misses them if a proof goes.
pub fn paper_holds()
    ensures starred { Starred }
    ensures runs { Runs }
    ensures table { Table }
    ensures batches { Batches }
    ensures letters { Letters }
    ensures lines { Lines }
    ensures logs { Logs }
    ensures inputs { Inputs }
    ensures tickets { Tickets }
    ensures weighed { Weighed }
    ensures refused { Refused }
    ensures staged { Staged }
    ensures booked { Booked }
    ensures finished { Finished }
    ensures received { Received }
    ensures spoken { Spoken }
    ensures logged { Logged }
    ensures commanded { Commanded }
    ensures opened { Opened }
    ensures asked { Asked }
    ensures sequenced { Sequenced }
    ensures tracked { Tracked }
    ensures displayed { Displayed }
    ensures discharged { Discharged }
    ensures requested { Requested }
    ensures refills { Refills }
    ensures waited { Waited }
    ensures connected { WhileConnected }
    ensures opening { OpeningLaw }
    ensures raw { RawLaw }
    ensures setpoints { SetpointLaw }
    ensures timed { TimedLaw }
    ensures scale { ScaleLaw }
    ensures analog { AnalogLaws }
{}

// Demand 3: what stays true after any ticks and requests from an accepted opening. It does nothing, and stands here as
// `paper_holds` does.
pub fn every_run()
    ensures balance { Balance }
    ensures sums { SumsOfHistory }
    ensures nothing_else { NothingElse }
    ensures zero { ZeroInForce }
    ensures totals { TotalOfBatches }
    ensures gates { GatesShut }
    ensures ranges { InRange }
    ensures refusals { Refusals }
    ensures read_back { ReadBack }
    ensures ticket { Ticket }
    ensures blocks { BlocksAreRuns }
    ensures lines { LinesAreRuns }
    ensures logs { LogsAreRuns }
    ensures apart { NeverTogether }
    ensures discharge { DischargeIsNoBatch }
    ensures from_range { FromRange }
    ensures waiting { WaitingOfWrites }
    ensures in_use { InUseStays }
    ensures latest { LatestOfWrites }
    ensures waiting_aside { WaitingAside }
    ensures write_aside { WriteAside }
    ensures connected { ZeroWhileConnected }
    ensures refill { ZeroThroughRefill }
    ensures zero_only { ToZeroOnly }
    ensures earlier { EarlierKeeps }
{}

// What holds of every tick with a line, for whatever settings and state or for every run. It does nothing, and stands here as
// `paper_holds` does.
pub fn every_line()
    ensures bounded { ReplyBounded }
    ensures bytes { BytesStay }
    ensures order { AnsweredInOrder }
    ensures refused { RefusedLines }
    ensures read_back { ReadBackOnLine }
    ensures gates { GatesShutOnLine }
    ensures ticket { TicketOnLine }
    ensures apart { NeverTogetherOnLine }
    ensures connected { ZeroWhileConnectedOnLine }
{}

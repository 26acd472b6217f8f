//! The laws, as the contracts of functions that do nothing.
ghost use Rattle.vx_rest.specs.CallLaws.{FilterCallsKeep, LimitGivesKeep, LimitTakesKeep, ProjectCallsKeep};
ghost use Rattle.vx_rest.specs.CallLaws.{GroupGivesKeep, GroupStaysKeep, GroupTakesKeep};
ghost use Rattle.vx_rest.specs.CallLaws.{OrderGivesKeep, OrderTakesKeep, TopGivesKeep, TopLastKeeps, TopTakesKeep};
ghost use Rattle.vx_rest.specs.CallLaws.{ExchangeGivesKeep, ExchangeTakesKeep, ValuesGiveKeep};
ghost use Rattle.vx_rest.specs.CallLaws.{BuildsLeaveKeep, JoinStaysKeep, OwedGivenKeep, ProbesAnsweredKeep};
ghost use Rattle.vx_rest.specs.Laws.{MovesKeepAnswers, MovesKeepFaults};
ghost use Rattle.vx_rest.specs.Run.{FaultsAreThePlans, MovesLowerTheRank, RunsEndInAnswers, RunsGoOn, SomeDriverIsRunnable};
ghost use Rattle.vx_rest.specs.Sums.{BuildsHaveRoom, MovesLowerTheMost, RunsKeepSums, SumsLeaveRoom};

/// An operator's call keeps what its node's rule asks, by the plain facts of the call.
pub fn calls_keep_rules()
    ensures filters { FilterCallsKeep }
    ensures projects { ProjectCallsKeep }
    ensures limit_takes { LimitTakesKeep }
    ensures limit_gives { LimitGivesKeep }

    ensures group_takes { GroupTakesKeep }
    ensures group_stays { GroupStaysKeep }
    ensures group_gives { GroupGivesKeep }

    ensures order_takes { OrderTakesKeep }
    ensures order_gives { OrderGivesKeep }
    ensures top_takes { TopTakesKeep }
    ensures top_gives { TopGivesKeep }
    ensures top_last { TopLastKeeps }

    ensures values_give { ValuesGiveKeep }
    ensures exchange_takes { ExchangeTakesKeep }
    ensures exchange_gives { ExchangeGivesKeep }

    ensures join_stays { JoinStaysKeep }
    ensures probes_answered { ProbesAnsweredKeep }
    ensures owed_given { OwedGivenKeep }
    ensures builds_leave { BuildsLeaveKeep }
{}

/// A query to which moves have led stands for answers of its plan alone, and can meet only its plan's faults.
#[tactic(auto, using(crate::proofs::WholeLaw::answers_reached, crate::proofs::WholeLaw::faulty_reached))]
pub fn moves_keep_meaning()
    ensures answers { MovesKeepAnswers }
    ensures faults { MovesKeepFaults }
{}

/// A run from the start ends in an answer, meets only its plan's faults, and until its end some driver has a
/// move, each of which lowers the rank.
#[tactic(auto, using(crate::proofs::MachineWhole::run_answers, crate::proofs::MachineWhole::run_faulty, crate::proofs::MachineWhole::run_goes, crate::proofs::MachineWhole::run_falls, crate::proofs::MachineWhole::run_runnable))]
pub fn runs_keep_meaning()
    ensures answers { RunsEndInAnswers }
    ensures faults { FaultsAreThePlans }
    ensures goes { RunsGoOn }
    ensures falls { MovesLowerTheRank }
    ensures runnable { SomeDriverIsRunnable }
{}

/// In every run, the rows that an operator has taken in and those still to come of its source are within the
/// growth of the source; so a batch that waits has room.
pub fn runs_keep_sums()
    ensures most { MovesLowerTheMost }
    ensures sums { RunsKeepSums }
    ensures room { SumsLeaveRoom }
    ensures builds { BuildsHaveRoom }
{}

//! The laws of answers for every number of processes. Each is the contract of a function that does nothing.

ghost use Rattle.wire_answer_laws.specs.AnySize.{AnswersOfSmall, RepliedStandForOne};

/// Where nothing is found, and in the instances that are judged each lookup-wait at which a process stands in the end is
/// of a name that is published once and never taken away: with whatever status a get-now is answered in an instance of
/// any size, on any nodes, one of its line is answered in an instance that is judged.
pub fn answers_of_small()
    ensures { AnswersOfSmall }
{}

/// Where each call of the instances that are judged has its reply, no process of them stands at a lookup-wait.
#[tactic(auto, using(crate::proofs::Replied::replied_stand_for_one))]
pub fn replied_stand_for_one()
    ensures { RepliedStandForOne }
{}

//! The laws of sizes. Each is the contract of a function that does nothing.

ghost use Rattle.wire_size_laws.specs.Answered.{LiveHappens, WaitsInMore, FewerAnswered, FewerWaitForOne, LargestTells};
ghost use Rattle.wire_size_laws.specs.Stages.{StagedAnswered};

/// Where each lookup-wait of a settled plan is of a name that is published once and never taken away: what has happened
/// where a run can't go on is exactly what is live.
pub fn live_happens()
    ensures { LiveHappens }
{}

/// What waits for ever in a settled instance whose lookup-waits are each of a name that is published once, waits in the
/// instance with one rank more, of a role that then has at least four.
pub fn waits_in_more()
    ensures { WaitsInMore }
{}

/// Where every call of an instance is answered, so is every call of the instance without one rank, of a role that has
/// at least four, if that is settled and each lookup-wait in it is of a name that is published once.
pub fn fewer_answered()
    ensures { FewerAnswered }
{}

/// Where in each instance with one rank of a role fewer each lookup-wait is of a name that is published once, it is so in
/// the whole instance.
pub fn fewer_wait_for_one()
    ensures { FewerWaitForOne }
{}

/// Where every call of the instances with the most ranks is answered, so is every call of those with fewer, but at least
/// three, of each role that has fewer, if all between are settled and each lookup-wait is of a name that is published
/// once.
pub fn largest_tells()
    ensures { LargestTells }
{}

/// Where all instances of a pattern are settled, and in the small ones every call is answered, each lookup-wait is of a
/// name that is published once, and what an event waits for has a lesser key or is earlier in its process: every call of
/// every instance with the least numbers at least is answered, on any nodes.
pub fn staged_answered()
    ensures { StagedAnswered }
{}

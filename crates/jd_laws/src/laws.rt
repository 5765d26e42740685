//! What a cluster and the reference machine of its record have in common: the contracts are the laws.
ghost use Rattle.jd_laws.specs.Laws.{FirstStands, MarksKeepSoundness, ReplaysAreSound, HappensKeeps, MovesKeep, StandsIsOfNetAndMarks, EmitStands, RunStands, ArriveStands, PrintStands, PrefixReplays, PartOfRun, PartOfArrival, WorkersStay, CountsWithin, HubCountsWithin, MailIsForWorkers, ReadyRuns, QuietIsStopped, EndedIsEnding};

/// A cluster that has just started stands for the machine's first state.
pub fn first_stands()
    ensures { FirstStands }
{}

/// Every legal mark keeps the machine's state sound, also where losses were noticed.
pub fn marks_keep_soundness()
    ensures { MarksKeepSoundness }
{}

/// So every state that the machine comes to is sound.
pub fn replays_are_sound()
    ensures { ReplaysAreSound }
{}

/// Every possible event of a worker or a link keeps what the cluster stands for.
pub fn happens_keeps()
    ensures { HappensKeeps }
{}

/// So do any number of them.
pub fn moves_keep()
    ensures { MovesKeep }
{}

/// What is said of a told outside speaks of its processes, links and marks alone.
pub fn stands_is_of_net_and_marks()
    ensures { StandsIsOfNetAndMarks }
{}

/// The oldest message of process 1 to another process leaves, and no mark is made.
pub fn emit_stands()
    ensures { EmitStands }
{}

/// The oldest task of process 1 that can go on goes on. Where that ends main, the machine's ending is main's.
pub fn run_stands()
    ensures { RunStands }
{}

/// The first message on a link to process 1 arrives.
pub fn arrive_stands()
    ensures { ArriveStands }
{}

/// Main's line is printed.
pub fn print_stands()
    ensures { PrintStands }
{}

/// Every beginning of a record can be replayed, and lacks the lines that the rest prints.
pub fn prefix_replays()
    ensures { PrefixReplays }
{}

/// The first effects of a step of process 1 can be recorded without the others, and print nothing.
pub fn part_of_run()
    ensures { PartOfRun }
{}

/// So can those of an arrival.
pub fn part_of_arrival()
    ensures { PartOfArrival }
{}

/// The machine has the workers of its start.
pub fn workers_stay()
    ensures { WorkersStay }
{}

/// The tasks that a process called and the cells that it made are together at most two for each mark, the requests that
/// it asked at most one.
pub fn counts_within()
    ensures { CountsWithin }
{}

/// So are those that process 1 counts.
pub fn hub_counts_within()
    ensures { HubCountsWithin }
{}

/// The messages of process 1 are to workers of the cluster.
pub fn mail_is_for_workers()
    ensures { MailIsForWorkers }
{}

/// Where process 1 can't go on, no task of it is ready.
pub fn ready_runs()
    ensures { ReadyRuns }
{}

/// Where no event is possible and process 1 waits, no mark is legal.
pub fn quiet_is_stopped()
    ensures { QuietIsStopped }
{}

/// The machine's ending is that of main, and it has one only where main has ended.
pub fn ended_is_ending()
    ensures { EndedIsEnding }
{}

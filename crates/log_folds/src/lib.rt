//! Laws of what is read from the log, apart from any code: the contents of records don't matter to the order and to
//! reads; reads up to a position are searches of a tag's ascending seqnums; and each fold goes by the records of its
//! tags alone. Each function here has an empty body, and a law as its contract; the definitions are in `specs/`.
#![tactic(auto)]

ghost use Rattle.log_folds.specs.Bounds.{SeenUpTo, ReadsAreSearches, SeqnumsAscend};
ghost use Rattle.log_folds.specs.ByTag.{OldestAreSeen, TagsRecords, TagsRecordsUpTo, TaggedFall};
ghost use Rattle.log_folds.specs.ByTag.{TaggedAreAlike};
ghost use Rattle.log_folds.specs.Contents.{OrdersAreAlike, ReadsAreAlike, AgreeingIsMapped};
ghost use Rattle.log_folds.specs.Folds.{CallsByTag, CallIsFirst, ResultsAreByTags, FirstAnswersStay};
ghost use Rattle.log_folds.specs.Folds.{LivesAreByTag, ModesAreByTags, ModesOneByOne, ModesUpTo};
ghost use Rattle.log_folds.specs.Folds.{FloorsByTags, FloorsOneByOne, FloorsUpTo, QueuesAreByTag};
ghost use Rattle.log_folds.specs.Folds.{CommitsByTag, WritesAreByTag, LastWriteIsByTag, HiddenByTag};
ghost use Rattle.log_folds.specs.Folds.{NewestAnswers};
ghost use Rattle.log_folds.specs.Opens.{OpensAreKept};
ghost use Rattle.log_folds.specs.Own.{OwnTagsCarry, TagsTellRecords, RangedHavePaths, OwnAreOrdered};
ghost use Rattle.log_folds.specs.Own.{OwnAreLive, OwnAreSeen, OwnPathsStay, OwnPathsAreLive};
ghost use Rattle.log_folds.specs.Recorded.{LiveAreLogged, TextsAreRecorded};
ghost use Rattle.log_folds.specs.Decoded.{LogsAreDecoded, ViewsAreDecoded};
ghost use Rattle.log_folds.specs.Trims.{ViewTrimsCount};
ghost use Rattle.log_folds.specs.TurnsOneByOne.{TurnsOneByOne, FirstStepByTag};

/// The order is the same whatever the shards' records are.
pub fn orders_are_alike<X, Y>()
    ensures { OrdersAreAlike X Y }
{}

/// Which records are live, and what each read finds, is the same whatever the records hold.
pub fn reads_are_alike<A, B>()
    ensures { ReadsAreAlike A B }
{}

/// Logs whose records agree one by one are one log, mapped.
pub fn agreeing_is_mapped<A, B>()
    ensures { AgreeingIsMapped A B }
{}

/// What is seen up to a position, by the reads of all.
pub fn seen_up_to<A>()
    ensures { SeenUpTo A }
{}

/// The reads up to a position are searches of the tag's ascending seqnums.
pub fn reads_are_searches<A>()
    ensures { ReadsAreSearches A }
{}

/// The seqnums of a tag ascend.
pub fn seqnums_ascend<A>()
    ensures { SeqnumsAscend A }
{}

/// What is live at a seqnum is the log's record there.
pub fn live_are_logged<A>()
    ensures { LiveAreLogged A }
{}

/// The text at a seqnum is that of the live record there.
pub fn texts_are_recorded()
    ensures { TextsAreRecorded }
{}

/// The log of what the shards' bytes say is that of the bytes, mapped.
pub fn logs_are_decoded<B>()
    ensures { LogsAreDecoded B }
{}

/// And so are the reads at a position.
pub fn views_are_decoded<B>()
    ensures { ViewsAreDecoded B }
{}

/// The oldest records of a log are a log, whose live records are seen at the position.
pub fn oldest_are_seen<A>()
    ensures { OldestAreSeen A }
{}

/// The records that carry a tag are those that its reads find, one by one.
pub fn tags_records<A>()
    ensures { TagsRecords A }
{}

/// Those of them up to a position are the oldest.
pub fn tags_records_up_to<A>()
    ensures { TagsRecordsUpTo A }
{}

/// Their seqnums fall.
pub fn tagged_fall<A>()
    ensures { TaggedFall A }
{}

/// Which records carry a tag is the same whatever they hold.
pub fn tagged_are_alike<A, B>()
    ensures { TaggedAreAlike A B }
{}

/// What a record says to a fold it says under the fold's tag.
pub fn own_tags_carry()
    ensures { OwnTagsCarry }
{}

/// The call tag and the step tag of a path are carried by its calls and its steps alone.
pub fn tags_tell_records()
    ensures { TagsTellRecords }
{}

/// A body whose fields are in range has its paths in range.
pub fn ranged_have_paths()
    ensures { RangedHavePaths }
{}

/// Where the shards' records carry their own tags, the ordered ones do.
pub fn own_are_ordered()
    ensures { OwnAreOrdered }
{}

/// And so do the live ones.
pub fn own_are_live()
    ensures { OwnAreLive }
{}

/// And so do those that an engine sees, and those that carry a tag.
pub fn own_are_seen()
    ensures { OwnAreSeen }
{}

/// And so where their paths are in range too.
pub fn own_paths_stay()
    ensures { OwnPathsStay }
{}

/// The live records of what the runtime sent are so.
pub fn own_paths_are_live()
    ensures { OwnPathsAreLive }
{}

/// The call of a path goes by the records of its call tag.
pub fn calls_by_tag()
    ensures { CallsByTag }
{}

/// The first record of the call tag of a path is its call.
pub fn call_is_first()
    ensures { CallIsFirst }
{}

/// The result of a path goes by the records of its step tag, or by those of lives.
pub fn results_are_by_tags()
    ensures { ResultsAreByTags }
{}

/// The call and the result that the oldest records say stay.
pub fn first_answers_stay()
    ensures { FirstAnswersStay }
{}

/// Which invocations are open, and what may be trimmed, goes by the records of lives.
pub fn lives_are_by_tag()
    ensures { LivesAreByTag }
{}

/// The modes go by switches and lives.
pub fn modes_are_by_tags()
    ensures { ModesAreByTags }
{}

/// The modes go over the switches one by one.
pub fn modes_one_by_one()
    ensures { ModesOneByOne }
{}

/// Up to a position they go over the first switches.
pub fn modes_up_to()
    ensures { ModesUpTo }
{}

/// Open invocations, the modes and the floor are kept record by record.
pub fn opens_are_kept()
    ensures { OpensAreKept }
{}

/// The floor goes by trims and lives.
pub fn floors_by_tags()
    ensures { FloorsByTags }
{}

/// The floor goes over the trims one by one.
pub fn floors_one_by_one()
    ensures { FloorsOneByOne }
{}

/// Up to a position it goes over the first trims.
pub fn floors_up_to()
    ensures { FloorsUpTo }
{}

/// What an engine may trim counts wherever the Trim is ordered.
pub fn trims_count()
    ensures { ViewTrimsCount }
{}

/// A queue goes by the records of its tag.
pub fn queues_are_by_tag()
    ensures { QueuesAreByTag }
{}

/// The commits go by the records of their tag.
pub fn commits_by_tag()
    ensures { CommitsByTag }
{}

/// The logged writes of a key go by the records of its tag.
pub fn writes_are_by_tag()
    ensures { WritesAreByTag }
{}

/// The last logged write of a key goes by the records of its tag.
pub fn last_write_is_by_tag()
    ensures { LastWriteIsByTag }
{}

/// What hides a user tag's records goes by the records of trimmed tags.
pub fn hidden_by_tag<A>()
    ensures { HiddenByTag A }
{}

/// The newest answer goes by the records that may answer.
pub fn newest_answers<A, X>()
    ensures { NewestAnswers A X }
{}

/// The turns of records go one by one, each by the next step record of its path.
pub fn turns_one_by_one()
    ensures { TurnsOneByOne }
{}

/// The next step record of a path is the next one of its step tag.
pub fn first_step_by_tag()
    ensures { FirstStepByTag }
{}
